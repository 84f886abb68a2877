// Changes of the state, made: one call, so that the state goes through one place and not through every command.
#![tactic(auto)]

ghost use Rattle.std.specs.Prelude.{◌≡◌, ◌<◌};
ghost use Rattle.packet.specs.Packet.{width};
ghost use Rattle.decisions.specs.Changes.{changed};

use decisions::Change;
use registers::parts::{
    bits_of, high_first, kept_flags, timings_in, with_byte, with_page, with_wait,
};
use registers::ports::store_register;
use registers::{HELD, Page, State, Wait};

// 01, 02, 03, and a part of 00: other flags, and every port register cleared.
fn reinit(s: State, flags: u8) -> State
    ensures { result ≡ changed s (Change.Select flags) }
{
    let page = Page {
        flags,
        ddrb: 0,
        portb: 0,
        ddrc: 0,
        portc: 0,
        ddrd: 0,
        portd: 0,
        ..s.page
    };
    with_page(s, page)
}

// 00: flags but reports and autoload, SPI settings, ERROR and port registers cleared.
fn reset(mut s: State) -> State
    ensures { result ≡ changed s Change.Reset }
{
    s.page.error = 0;
    s.page.config = 0;
    s.page.configured = false;
    s.page.size = 0;
    let kept = kept_flags(s.page.flags);
    reinit(s, kept)
}

// Nothing is waited for or held.
fn end_wait(s: State) -> State
    ensures { result ≡ changed s Change.EndWait }
{
    with_wait(s, Wait::Nothing, [0; HELD])
}

// The last packet byte: the packet register is loaded. The caller shows that the size register is in range.
fn load_packet(mut s: State, at: u8, byte: u8) -> State
    requires { s.page.size < width }
    ensures { result ≡ changed s (Change.LoadPacket at byte) }
{
    let held = with_byte(s.held, at, byte);
    s.page.packet = packet::load_packet(&held, bits_of(s.page.size), high_first(s.page.config));
    end_wait(s)
}

// The state with a change made. The caller shows that the size register is in range. It is longer than other functions because it is
// the list itself, an arm a change.
pub fn apply(mut s: State, change: Change) -> State
    requires { s.page.size < width }
    ensures { result ≡ changed s change }
{
    match change {
        Change::Nothing => s,
        Change::Reset => reset(s),
        Change::Select(flags) => reinit(s, flags),
        Change::ClearError => {
            s.page.error = 0;
            s
        }
        Change::Save => {
            s.shared.eprom = settings::image(s.page);
            s
        }
        Change::Flags(flags) => {
            s.page.flags = flags;
            s
        }
        Change::Latch(x) => {
            s.page.portd = x;
            s
        }
        Change::Await(wait) => with_wait(s, wait, [0; HELD]),
        Change::EndWait => end_wait(s),
        Change::Store(r, x) => {
            s.page = store_register(s.page, r, x);
            end_wait(s)
        }
        Change::Cycles(x) => {
            s.shared.cycles = x;
            end_wait(s)
        }
        Change::Config(x) => {
            s.page.config = x;
            s.page.configured = true;
            end_wait(s)
        }
        Change::Size(x) => {
            s.page.size = x;
            end_wait(s)
        }
        Change::Hold { wait, at, byte } => with_wait(s, wait, with_byte(s.held, at, byte)),
        Change::LoadPacket { at, byte } => load_packet(s, at, byte),
        Change::LoadTimings { at, byte } => {
            s.page.timings = timings_in(with_byte(s.held, at, byte));
            end_wait(s)
        }
    }
}

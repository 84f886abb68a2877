// What an event decides: what it changes, which waveform it makes, and what it answers.
#![tactic(auto)]

ghost use Rattle.std.specs.Prelude.{◌≡◌};
ghost use Rattle.registers.specs.Ranges.{InRange};
ghost use Rattle.decisions.specs.Events.{decision_of, drop_after};

mod common;
mod events;
mod extended;
mod i2c;
mod kinds;
mod one_wire;
mod operands;
mod packets;
mod rejections;
mod spi;
mod timings;

use registers::{Event, PortRegister, State, Wait};
use signals::Waveform;

// What an event answers, by name; what depends on samples or on the packet register is filled in when it is written.
#[derive(Clone, Copy)]
pub enum Answer {
    Silent,
    Returns(u8),
    SendsLow,
    ReturnsAndSends(u8),
    Checked(u8),
    Sends(u8),
    SendsSample,
    SendsLevel,
    SendsEprom,
    SendsSerial,
    SendsTimings,
    SendsPacket,
    ReturnsTwice,
    ReturnsThenLow,
}

// What an event changes of the state, but for what depends on samples; `changed` in the definitions gives each its meaning.
#[derive(Clone, Copy)]
pub enum Change {
    Nothing,
    Reset,
    Select(u8),
    ClearError,
    Save,
    Flags(u8),
    Latch(u8),
    Await(Wait),
    EndWait,
    Store(PortRegister, u8),
    Cycles(u8),
    Config(u8),
    Size(u8),
    Hold { wait: Wait, at: u8, byte: u8 },
    LoadPacket { at: u8, byte: u8 },
    LoadTimings { at: u8, byte: u8 },
}

// What an event will do, before any sample is read: the change, the waveform and the answer.
#[derive(Clone, Copy)]
pub struct Decision {
    pub change: Change,
    pub wave: Waveform,
    pub answer: Answer,
}

// What an event decides, before any sample is read. The caller shows that the state breaks no range.
pub fn decision_of(s: State, e: Event) -> Decision
    requires { InRange s }
    ensures { result ≡ decision_of s e }
{
    match e {
        Event::Byte(x) => events::byte(s, x),
        Event::Fault(f) => kinds::returning(u8::from(f)),
    }
}

// Whether a drop is pending after an event: a line fault between commands leaves one, and a byte ends it.
pub fn drop_after(s: State, e: Event) -> bool
    ensures { result ≡ drop_after s.wait e }
{
    let w = s.wait;
    match e {
        Event::Byte(_) => false,
        Event::Fault(_) => registers::is_idle(w),
    }
}

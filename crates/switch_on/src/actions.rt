// The actions of switch-on: the ports with the image's values, then CS or SS high.
ghost use Rattle.std.specs.Prelude.{◌≡◌, ◌≤◌, [], ◌∷◌, length};
ghost use Rattle.std.specs.Option.{option_map_or};
ghost use Rattle.wire.specs.Action.{bytes_of};
ghost use Rattle.wire.specs.Buffer.{Written};
ghost use Rattle.lines.specs.Lines.{high};
ghost use Rattle.switch_on.specs.SwitchOn.{select_actions, on_actions};

use registers::Page;
use registers::parts::{i2c_selected, spi_selected};

// How many bytes the six actions of the ports are, and those with one for CS or SS.
const PORTS: usize = 6 * wire::ACTION_BYTES;

pub(crate) const MOST: usize = 7 * wire::ACTION_BYTES;

// The line that goes high for the interface selected, if it has one.
fn select_line(flags: u8) -> Option<u8>
    ensures { option_map_or (λ line. high line ∷ []) result [] ≡ select_actions flags }
{
    if i2c_selected(flags) {
        Some(wire::LINE_CS)
    } else if spi_selected(flags) {
        Some(wire::LINE_SS)
    } else {
        None
    }
}

// How many bytes the actions are.
pub(crate) fn size(page: Page) -> usize
    ensures { result ≡ length (bytes_of (on_actions page)) }
{
    match select_line(page.flags) {
        Some(_) => MOST,
        None => PORTS,
    }
}

// Writes CS or SS high, or nothing, at the start of the unused part of a lent buffer, for which the caller shows the room.
#[tactic(auto, using(wire::proofs::Buffers::written_none))]
fn put_select(out: &mut [u8], flags: u8) -> usize
    requires { length (bytes_of (select_actions flags)) ≤ length out.old }
    ensures { Written out.old 0 (bytes_of (select_actions flags)) out.new result }
{
    match select_line(flags) {
        Some(line) => wire::put_action(out, wire::VERB_DRIVE_HIGH, line, 0),
        None => 0,
    }
}

// Writes the actions at the start of the unused part of a lent buffer, for which the caller shows the room.
pub(crate) fn put(out: &mut [u8], page: Page) -> usize
    requires { length (bytes_of (on_actions page)) ≤ length out.old }
    ensures { Written out.old 0 (bytes_of (on_actions page)) out.new result }
{
    let at = lines::ports::put_ports(
        out, page.ddrb, page.portb, page.ddrc, page.portc, page.ddrd, page.portd,
    );
    at + put_select(&mut out[at..], page.flags)
}

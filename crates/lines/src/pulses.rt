// A pulse of a port or of PB7: what each measures, and its writer.
ghost use Rattle.std.specs.Prelude.{◌≡◌, ◌≤◌, [], ◌∷◌, length};
ghost use Rattle.wire.specs.Action.{action, bytes_of, no_line};
ghost use Rattle.wire.specs.Buffer.{Written};
ghost use Rattle.lines.specs.Waves.{measure_of, port_pulse, pb7_pulse};

use crate::Measured;
use crate::actions::{high, latch, low};
use wire::Action;

const ACTIONS: u8 = 3;

// A latch written, a wait, and the latch written again.
pub fn measure_port_pulse(line: u8, first: u8, unit: u8, wait: u8, last: u8) -> Measured
    ensures { result ≡ measure_of (port_pulse line first unit wait last) }
{
    crate::quiet(ACTIONS)
}

// Writes a port pulse's actions, for which the caller shows the room.
pub fn put_port_pulse(out: &mut [u8], line: u8, first: u8, unit: u8, wait: u8, last: u8) -> usize
    requires { length (bytes_of (port_pulse line first unit wait last).actions) ≤ length out.old }
    ensures { Written out.old 0 (bytes_of (port_pulse line first unit wait last).actions) out.new result }
{
    let wait = Action::new(unit, wire::NO_LINE, wait as u16);
    wire::put_actions(out, &[latch(line, first), wait, latch(line, last)])
}

// PB7 driven low, a wait, and PB7 driven high.
pub fn measure_pb7_pulse(unit: u8, wait: u16) -> Measured
    ensures { result ≡ measure_of (pb7_pulse unit wait) }
{
    crate::quiet(ACTIONS)
}

// Writes the actions of PB7's pulse, for which the caller shows the room.
pub fn put_pb7_pulse(out: &mut [u8], unit: u8, wait: u16) -> usize
    requires { length (bytes_of (pb7_pulse unit wait).actions) ≤ length out.old }
    ensures { Written out.old 0 (bytes_of (pb7_pulse unit wait).actions) out.new result }
{
    let wait = Action::new(unit, wire::NO_LINE, wait);
    wire::put_actions(out, &[low(wire::LINE_PB7), wait, high(wire::LINE_PB7)])
}

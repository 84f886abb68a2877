// Direction and latch of the ports, and reinit: what it measures, and its writer.
ghost use Rattle.std.specs.Prelude.{◌≡◌, ◌≤◌, [], ◌∷◌, length};
ghost use Rattle.wire.specs.Action.{action, bytes_of, set_direction, set_latch};
ghost use Rattle.wire.specs.Buffer.{Written};
ghost use Rattle.lines.specs.Lines.{port_actions};
ghost use Rattle.lines.specs.Waves.{measure_of, reinit, reinit_high};

use crate::Measured;
use crate::actions::{direction, latch};

// Two actions for each of three ports.
const PORT_ACTIONS: u8 = 2;

const ACTIONS: u8 = 3 * PORT_ACTIONS;

// Direction then latch, for B, C, D, at the start of the unused part of a lent buffer, for which the caller shows the room.
pub fn put_ports(
    out: &mut [u8],
    ddrb: u8,
    portb: u8,
    ddrc: u8,
    portc: u8,
    ddrd: u8,
    portd: u8,
) -> usize
    requires { length (bytes_of (port_actions ddrb portb ddrc portc ddrd portd)) ≤ length out.old }
    ensures { Written out.old 0 (bytes_of (port_actions ddrb portb ddrc portc ddrd portd)) out.new result }
{
    let row = [
        direction(wire::LINE_PORT_B, ddrb),
        latch(wire::LINE_PORT_B, portb),
        direction(wire::LINE_PORT_C, ddrc),
        latch(wire::LINE_PORT_C, portc),
        direction(wire::LINE_PORT_D, ddrd),
        latch(wire::LINE_PORT_D, portd),
    ];
    wire::put_actions(out, &row)
}

// Reinit: all directions and latches 0.
pub fn measure_reinit() -> Measured
    ensures { result ≡ measure_of reinit }
{
    crate::quiet(ACTIONS)
}

// Writes reinit's actions, for which the caller shows the room.
pub fn put_reinit(out: &mut [u8]) -> usize
    requires { length (bytes_of reinit.actions) ≤ length out.old }
    ensures { Written out.old 0 (bytes_of reinit.actions) out.new result }
{
    put_ports(out, 0, 0, 0, 0, 0, 0)
}

// Reinit, and then a line driven high.
pub fn measure_reinit_high(line: u8) -> Measured
    ensures { result ≡ measure_of (reinit_high line) }
{
    crate::quiet(ACTIONS + 1)
}

// Writes reinit's actions and the line's, for which the caller shows the room.
pub fn put_reinit_high(out: &mut [u8], line: u8) -> usize
    requires { length (bytes_of (reinit_high line).actions) ≤ length out.old }
    ensures { Written out.old 0 (bytes_of (reinit_high line).actions) out.new result }
{
    let at = put_reinit(out);
    at + wire::put_action(&mut out[at..], wire::VERB_DRIVE_HIGH, line, 0)
}

// The clauses of the extended commands, after 1D.
ghost use Rattle.std.specs.Prelude.{◌≡◌};
ghost use Rattle.decisions.specs.Extended.{extended_clause};

use crate::kinds::{awaiting, ending, storing};
use crate::{Answer, Decision};
use commands::ExtendedCommand;
use registers::bits::with_bit;
use registers::ports::{port_line, port_register, port_verb};
use registers::{Bit, Operand, PortRegister, State, Wait};
use signals::Waveform;

// 01, 02, 03, 08, 09: a bit of a latch to a level, a wait, and back.
fn pulse(s: State, latch: PortRegister, bit: Bit, level: bool, unit: u8, wait: u8) -> Decision
    ensures { result ≡ extended_clause s (ExtendedCommand.Pulse latch bit level unit wait) }
{
    let page = s.page;
    let first = with_bit(bit, level, port_register(page, latch));
    let last = with_bit(bit, !level, first);
    let line = port_line(latch);
    let wave = Waveform::PortPulse {
        line,
        first,
        unit,
        wait,
        last,
    };
    storing(latch, last, wave, Answer::Returns(codes::NO_ERROR))
}

// 0A to 0D: a bit of a port register set or cleared, with one action.
fn set_bit(s: State, r: PortRegister, bit: Bit, on: bool) -> Decision
    ensures { result ≡ extended_clause s (ExtendedCommand.SetBit r bit on) }
{
    let page = s.page;
    let value = with_bit(bit, on, port_register(page, r));
    let verb = port_verb(r);
    let line = port_line(r);
    let wave = Waveform::Port { verb, line, value };
    storing(r, value, wave, Answer::Returns(codes::NO_ERROR))
}

// What an extended command decides.
pub(crate) fn clause(s: State, c: ExtendedCommand) -> Decision
    ensures { result ≡ extended_clause s c }
{
    match c {
        ExtendedCommand::Pulse(r, bit, level, unit, n) => pulse(s, r, bit, level, unit, n),
        ExtendedCommand::SetBit(r, bit, on) => set_bit(s, r, bit, on),
        ExtendedCommand::LoadCycles => awaiting(Wait::One(Operand::ToCycles)),
        ExtendedCommand::ReadCycles => ending(Waveform::Still, Answer::Sends(s.shared.cycles)),
    }
}

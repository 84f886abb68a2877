// The operand that was waited for: what it decides.
ghost use Rattle.std.specs.Prelude.{◌≡◌};
ghost use Rattle.decisions.specs.Operands.{port_clause, operand_clause};

use crate::kinds::{ending, storing};
use crate::{Answer, Change, Decision};
use registers::{Operand, PortRegister, State};
use signals::Waveform;

// An operand written to a port register: protected bits keep their old bits.
fn write_port(s: State, r: PortRegister, x: u8) -> Decision
    ensures { result ≡ port_clause s.page r x }
{
    let page = s.page;
    let value = registers::ports::protect(r, registers::ports::port_register(page, r), x);
    let verb = registers::ports::port_verb(r);
    let line = registers::ports::port_line(r);
    storing(
        r,
        value,
        Waveform::Port { verb, line, value },
        Answer::Silent,
    )
}

// What an operand decides, by what it goes to.
pub(crate) fn clause(s: State, o: Operand, x: u8) -> Decision
    ensures { result ≡ operand_clause s.page o x }
{
    match o {
        Operand::ToPort(r) => write_port(s, r, x),
        Operand::ToCycles => Decision {
            change: Change::Cycles(x),
            wave: Waveform::Still,
            answer: Answer::Silent,
        },
        Operand::ToI2c => ending(
            Waveform::WriteI2c(x),
            Answer::Checked(codes::NO_ACKNOWLEDGE),
        ),
        Operand::ToConfig => Decision {
            change: Change::Config(x % 8),
            wave: Waveform::Still,
            answer: Answer::Returns(codes::NO_ERROR),
        },
        Operand::ToSize => Decision {
            change: Change::Size(packet::size_register(x)),
            wave: Waveform::Still,
            answer: Answer::Returns(codes::NO_ERROR),
        },
        Operand::ToOneWire => ending(Waveform::WriteOneWire(x), Answer::Returns(codes::NO_ERROR)),
        Operand::ToOneWireBit => ending(
            Waveform::WriteOneWireBit(x),
            Answer::Returns(codes::NO_ERROR),
        ),
        Operand::ToOneWireStrong => ending(
            Waveform::WriteOneWireStrong(x),
            Answer::Returns(codes::NO_ERROR),
        ),
    }
}

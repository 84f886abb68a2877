// The clauses of I2C's commands.
ghost use Rattle.std.specs.Prelude.{◌≡◌};
ghost use Rattle.decisions.specs.I2c.{i2c_clause};

use crate::kinds::{awaiting, performing};
use crate::{Answer, Change, Decision};
use commands::I2cCommand;
use registers::{Operand, Wait};
use signals::Waveform;

// What an I2C command decides.
pub(crate) fn clause(c: I2cCommand) -> Decision
    ensures { result ≡ i2c_clause c }
{
    match c {
        I2cCommand::SendStart => performing(Waveform::Start),
        I2cCommand::SendStop => performing(Waveform::Stop),
        I2cCommand::SendByte => awaiting(Wait::One(Operand::ToI2c)),
        I2cCommand::ReadByte(answer) => Decision {
            change: Change::Nothing,
            wave: Waveform::ReadI2c(answer),
            answer: Answer::SendsSample,
        },
        I2cCommand::DriveCs(verb) => performing(Waveform::Line {
            verb,
            line: wire::LINE_CS,
        }),
        I2cCommand::ReadCs => Decision {
            change: Change::Nothing,
            wave: Waveform::SampleLine(wire::LINE_CS),
            answer: Answer::SendsLevel,
        },
    }
}

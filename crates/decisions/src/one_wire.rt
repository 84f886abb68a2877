// The clauses of 1-Wire's commands.
ghost use Rattle.std.specs.Prelude.{◌≡◌};
ghost use Rattle.decisions.specs.OneWire.{one_wire_clause};

use crate::kinds::{awaiting, performing, sending};
use crate::{Answer, Change, Decision};
use commands::OneWireCommand;
use registers::{Operand, Wait};
use signals::Waveform;

// What a 1-Wire command decides.
pub(crate) fn clause(c: OneWireCommand) -> Decision
    ensures { result ≡ one_wire_clause c }
{
    match c {
        OneWireCommand::SendReset => Decision {
            change: Change::Nothing,
            wave: Waveform::ResetOneWire,
            answer: Answer::Checked(codes::NO_PRESENCE),
        },
        // The bit stands before the byte because that compiles best.
        OneWireCommand::SendBit => awaiting(Wait::One(Operand::ToOneWireBit)),
        OneWireCommand::SendByte => awaiting(Wait::One(Operand::ToOneWire)),
        OneWireCommand::SendStrong => awaiting(Wait::One(Operand::ToOneWireStrong)),
        OneWireCommand::ReadByte => Decision {
            change: Change::Nothing,
            wave: Waveform::ReadOneWire,
            answer: Answer::SendsSample,
        },
        OneWireCommand::ReadBit => Decision {
            change: Change::Nothing,
            wave: Waveform::ReadOneWireBit,
            answer: Answer::SendsLevel,
        },
        OneWireCommand::LoadTimings => awaiting(Wait::Timings {
            left: registers::TIMINGS as u8,
        }),
        OneWireCommand::ReadTimings => sending(Answer::SendsTimings),
        OneWireCommand::ReleaseDq => performing(Waveform::Line {
            verb: wire::VERB_RELEASE,
            line: wire::LINE_DQ,
        }),
        OneWireCommand::PulsePb7 { unit, wait } => performing(Waveform::Pb7Pulse { unit, wait }),
    }
}

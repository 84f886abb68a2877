// The clauses of SPI's commands.
ghost use Rattle.std.specs.Prelude.{◌≡◌, ◌<◌};
ghost use Rattle.packet.specs.Packet.{width};
ghost use Rattle.decisions.specs.Spi.{spi_clause};

use crate::kinds::{awaiting, performing, sending};
use crate::{Answer, Change, Decision};
use commands::SpiCommand;
use registers::parts::{bits_of, packet_bytes};
use registers::{Operand, Wait};
use signals::Waveform;

// What an SPI command decides. The caller shows that the size register is in range.
pub(crate) fn clause(config: u8, size: u8, c: SpiCommand) -> Decision
    requires { size < width }
    ensures { result ≡ spi_clause config size c }
{
    match c {
        SpiCommand::LoadConfig => awaiting(Wait::One(Operand::ToConfig)),
        SpiCommand::ReadConfig => sending(Answer::Sends(config)),
        SpiCommand::LoadSize => awaiting(Wait::One(Operand::ToSize)),
        SpiCommand::ReadSize => sending(Answer::Sends(bits_of(size))),
        SpiCommand::LoadPacket(exchange) => awaiting(Wait::Packet {
            left: packet_bytes(size),
            exchange,
        }),
        SpiCommand::ReadPacket => sending(Answer::SendsPacket),
        SpiCommand::StartExchange => performing(Waveform::Exchange),
        SpiCommand::DriveSs(verb) => performing(Waveform::Line {
            verb,
            line: wire::LINE_SS,
        }),
        SpiCommand::ReadSs => Decision {
            change: Change::Nothing,
            wave: Waveform::SampleLine(wire::LINE_SS),
            answer: Answer::SendsLevel,
        },
        SpiCommand::ReadLow => sending(Answer::SendsLow),
        SpiCommand::ExchangeAndRead => Decision {
            change: Change::Nothing,
            wave: Waveform::Exchange,
            answer: Answer::ReturnsThenLow,
        },
    }
}

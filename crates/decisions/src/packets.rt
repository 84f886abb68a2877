// Packet bytes: what each decides.
ghost use Rattle.std.specs.Prelude.{◌≡◌, ◌≤◌};
ghost use Rattle.packet.specs.Packet.{packet_bytes};
ghost use Rattle.registers.specs.Registers.{bits_of};
ghost use Rattle.decisions.specs.Operands.{packet_clause};

use crate::{Answer, Change, Decision};
use registers::Wait;
use registers::parts::packet_bytes;
use signals::Waveform;

// A packet byte, with so many to come, itself among them.
pub(crate) fn packet_byte(size: u8, left: u8, exchange: bool, x: u8) -> Decision
    requires { (1 ≤ left) × (left ≤ packet_bytes (bits_of size)) }
    ensures { result ≡ packet_clause (bits_of size) left exchange x }
{
    let at = packet_bytes(size) - left;
    if left == 1 {
        let change = Change::LoadPacket { at, byte: x };
        if exchange {
            return Decision {
                change,
                wave: Waveform::Exchange,
                answer: Answer::ReturnsTwice,
            };
        }
        return Decision {
            change,
            wave: Waveform::Still,
            answer: Answer::Returns(codes::NO_ERROR),
        };
    }
    let wait = Wait::Packet {
        left: left - 1,
        exchange,
    };
    Decision {
        change: Change::Hold { wait, at, byte: x },
        wave: Waveform::Still,
        answer: Answer::Silent,
    }
}

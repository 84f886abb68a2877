// Timing bytes: what each decides.
ghost use Rattle.std.specs.Prelude.{◌≡◌, ◌≤◌};
ghost use Rattle.registers.specs.Registers.{timing_bytes};
ghost use Rattle.decisions.specs.Operands.{timings_clause};

use crate::{Answer, Change, Decision};
use registers::Wait;
use signals::Waveform;

// A timing byte, with so many to come, itself among them; all are stored at the last.
// (Kept beside `packet_byte`: both together share only the `Hold`; the sizes, the waits and what the last byte decides would be handed in.)
pub(crate) fn timing_byte(left: u8, x: u8) -> Decision
    requires { (1 ≤ left) × (left ≤ timing_bytes) }
    ensures { result ≡ timings_clause left x }
{
    let at = registers::TIMINGS as u8 - left;
    if left == 1 {
        return Decision {
            change: Change::LoadTimings { at, byte: x },
            wave: Waveform::Still,
            answer: Answer::Returns(codes::NO_ERROR),
        };
    }
    let wait = Wait::Timings { left: left - 1 };
    Decision {
        change: Change::Hold { wait, at, byte: x },
        wave: Waveform::Still,
        answer: Answer::Silent,
    }
}

// The clauses of the common commands.
ghost use Rattle.std.specs.Prelude.{◌≡◌, ◌≤◌, ◌<◌};
ghost use Rattle.decisions.specs.Common.{selects, flagged, common_clause};

use crate::kinds::{awaiting, sending};
use crate::{Answer, Change, Decision};
use commands::CommonCommand;
use registers::bits::with_bit;
use registers::parts::kept_flags;
use registers::{Bit, Operand, State, Wait};
use signals::Waveform;

// 01, 02, 03: an interface selected by its flag, beside the flags that are kept. The caller shows that the sum is a byte.
fn select(kept: u8, flag: u8, wave: Waveform) -> Decision
    requires { (kept ≤ 24) × (flag < 8) }
    ensures { result ≡ selects kept flag wave }
{
    let f = kept + flag;
    Decision {
        change: Change::Select(f),
        wave,
        answer: Answer::Returns(codes::NO_ERROR),
    }
}

// 07 to 0A: a flag set or cleared, 00 returned.
fn set_flag(flags: u8, bit: Bit, on: bool) -> Decision
    ensures { result ≡ flagged flags bit on }
{
    let f = with_bit(bit, on, flags);
    Decision {
        change: Change::Flags(f),
        wave: Waveform::Still,
        answer: Answer::Returns(codes::NO_ERROR),
    }
}

// 1C: PD4 latched, the IOG cycles waited, PD3 latched.
fn set_iog(s: State) -> Decision
    ensures { result ≡ common_clause s CommonCommand.SetIog }
{
    let first = with_bit(Bit::Four, true, s.page.portd);
    let last = with_bit(Bit::Three, true, first);
    let wait = s.shared.cycles;
    let wave = Waveform::PortPulse {
        line: wire::LINE_PORT_D,
        first,
        unit: wire::VERB_WAIT_CYCLES,
        wait,
        last,
    };
    Decision {
        change: Change::Latch(last),
        wave,
        answer: Answer::Returns(codes::NO_ERROR),
    }
}

// What a common command decides.
pub(crate) fn clause(s: State, c: CommonCommand) -> Decision
    ensures { result ≡ common_clause s c }
{
    let kept = kept_flags(s.page.flags);
    match c {
        CommonCommand::ResetDevice => Decision {
            change: Change::Reset,
            wave: Waveform::Reinit,
            answer: Answer::Returns(codes::NO_ERROR),
        },
        CommonCommand::SelectI2c => select(kept, 1, Waveform::ReinitHigh(wire::LINE_CS)),
        CommonCommand::SelectSpi => select(kept, 2, Waveform::ReinitHigh(wire::LINE_SS)),
        CommonCommand::SelectOneWire => select(kept, 4, Waveform::Reinit),
        CommonCommand::ReadError => Decision {
            change: Change::ClearError,
            wave: Waveform::Still,
            answer: Answer::Sends(s.page.error),
        },
        CommonCommand::SaveToEprom => Decision {
            change: Change::Save,
            wave: Waveform::Still,
            answer: Answer::Returns(codes::NO_ERROR),
        },
        CommonCommand::ReadFromEprom => sending(Answer::SendsEprom),
        CommonCommand::SetReports(on) => set_flag(s.page.flags, Bit::Three, on),
        CommonCommand::SetAutoload(on) => set_flag(s.page.flags, Bit::Four, on),
        CommonCommand::SetupPort(r) => awaiting(Wait::One(Operand::ToPort(r))),
        CommonCommand::ReadPort(r) => {
            let page = s.page;
            sending(Answer::Sends(registers::ports::port_register(page, r)))
        }
        CommonCommand::ReadPins(line) => Decision {
            change: Change::Nothing,
            wave: Waveform::SamplePort(line),
            answer: Answer::SendsSample,
        },
        CommonCommand::ReadFlags => sending(Answer::Sends(s.page.flags)),
        CommonCommand::ReadVersion => sending(Answer::Sends(s.shared.version)),
        CommonCommand::SetIog => set_iog(s),
        CommonCommand::DoExtended => awaiting(Wait::Extended),
        CommonCommand::ReadSerial => sending(Answer::SendsSerial),
    }
}

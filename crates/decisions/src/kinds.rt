// The decisions that several clauses are made of.
ghost use Rattle.std.specs.Prelude.{◌≡◌};
ghost use Rattle.decisions.specs.Decisions.{returns, sends, dropped, performs, awaits, ends, stores};

use crate::{Answer, Change, Decision};
use registers::{PortRegister, Wait};
use signals::Waveform;

// A code returned, and nothing else.
pub(crate) fn returning(code: u8) -> Decision
    ensures { result ≡ returns code }
{
    sending(Answer::Returns(code))
}

// Something sent, and nothing else.
pub(crate) fn sending(answer: Answer) -> Decision
    ensures { result ≡ sends answer }
{
    Decision {
        change: Change::Nothing,
        wave: Waveform::Still,
        answer,
    }
}

// A byte dropped.
pub(crate) fn dropping() -> Decision
    ensures { result ≡ dropped }
{
    sending(Answer::Silent)
}

// A waveform, and 00 returned.
pub(crate) fn performing(wave: Waveform) -> Decision
    ensures { result ≡ performs wave }
{
    Decision {
        change: Change::Nothing,
        wave,
        answer: Answer::Returns(codes::NO_ERROR),
    }
}

// 00 returned, and then an operand or more waited for.
pub(crate) fn awaiting(wait: Wait) -> Decision
    ensures { result ≡ awaits wait }
{
    Decision {
        change: Change::Await(wait),
        wave: Waveform::Still,
        answer: Answer::Returns(codes::NO_ERROR),
    }
}

// The wait ended, with a waveform and an answer.
pub(crate) fn ending(wave: Waveform, answer: Answer) -> Decision
    ensures { result ≡ ends wave answer }
{
    Decision {
        change: Change::EndWait,
        wave,
        answer,
    }
}

// A port register stored and the wait ended, with a waveform and an answer.
pub(crate) fn storing(r: PortRegister, x: u8, wave: Waveform, answer: Answer) -> Decision
    ensures { result ≡ stores r x wave answer }
{
    Decision {
        change: Change::Store(r, x),
        wave,
        answer,
    }
}

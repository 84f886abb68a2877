// The codes that an answer returns.
ghost use Rattle.std.specs.Prelude.{◌≡◌, cond, eqb};
ghost use Rattle.effects.specs.Returning.{ReturnedBy};

use crate::Returned;
use decisions::Answer;

// 00 for a low sample, else a code.
pub(crate) fn checked(x: u8, code: u8) -> u8
    ensures { result ≡ cond (eqb x 0) 0x00 code }
{
    if x == 0 { codes::NO_ERROR } else { code }
}

// The codes of an answer, where the samples gave x; what the state holds makes no difference to them.
#[tactic(auto, using(decisions::proofs::Sent::codes_sent), unfolding(decisions::specs::Said::codes_of))]
pub fn returned(answer: Answer, x: u8) -> Returned
    ensures { ReturnedBy answer x result }
{
    match answer {
        Answer::Silent => Returned::Nothing,
        Answer::Returns(code) => Returned::One(code),
        Answer::ReturnsTwice => Returned::Two(codes::NO_ERROR, codes::NO_ERROR),
        Answer::ReturnsAndSends(code) => Returned::One(code),
        Answer::Checked(code) => Returned::One(checked(x, code)),
        Answer::Sends(_) => Returned::Nothing,
        Answer::SendsSample => Returned::Nothing,
        Answer::SendsLevel => Returned::Nothing,
        Answer::SendsEprom => Returned::Nothing,
        Answer::SendsSerial => Returned::Nothing,
        Answer::SendsTimings => Returned::Nothing,
        Answer::SendsPacket => Returned::Nothing,
        Answer::SendsLow => Returned::Nothing,
        Answer::ReturnsThenLow => Returned::One(codes::NO_ERROR),
    }
}

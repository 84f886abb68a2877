// What an answer leaves in ERROR and sends.
ghost use Rattle.std.specs.Prelude.{◌≡◌, cond, eqb, [], ◌∷◌, map};
ghost use Rattle.decisions.specs.Said.{returned, sent, returned_and_sent};
ghost use Rattle.decisions.specs.Effects.{said_of};
ghost use Rattle.effects.specs.Replies.{reply_bytes, response, response_of, IsStored};

use crate::returning::checked;
use crate::{Reply, Responded};
use decisions::Answer;
use registers::State;
use registers::parts::reports_on;

// Data sent: ERROR stays.
#[tactic(auto, using(crate::proofs::Responses::all_sent))]
fn send(s: State, reply: Reply) -> Responded
    ensures { response result.state (reply_bytes result.state result.reply) ≡ response_of s (map sent (reply_bytes s reply)) }
{
    Responded { state: s, reply }
}

// A code returned: stored, with one reply where reports are on and another where they are off.
fn store(mut s: State, code: u8, on: Reply, off: Reply) -> Responded
    ensures { IsStored s code on off result }
{
    s.page.error = code;
    let reply = if reports_on(s.page.flags) { on } else { off };
    Responded { state: s, reply }
}

// A code returned and sent whatever the reports.
#[tactic(auto, unfolding(decisions::specs::Said::error_after, decisions::specs::Said::replies_of))]
fn store_and_send(mut s: State, code: u8) -> Responded
    ensures { response result.state (reply_bytes result.state result.reply) ≡ response_of s (returned_and_sent code ∷ []) }
{
    s.page.error = code;
    Responded {
        state: s,
        reply: Reply::One(code),
    }
}

// 0F for a low sample, 8F for a high one.
fn level_byte(x: u8) -> u8
    ensures { result ≡ cond (eqb x 0) 0x0F 0x8F }
{
    if x == 0 { 0x0F } else { 0x8F }
}

// What an answer leaves and sends, where the samples gave x.
pub fn respond(s: State, answer: Answer, x: u8) -> Responded
    ensures { response result.state (reply_bytes result.state result.reply) ≡ response_of s (said_of s x answer) }
{
    match answer {
        Answer::Silent => send(s, Reply::Empty),
        Answer::Returns(code) => store(s, code, Reply::One(code), Reply::Empty),
        Answer::ReturnsTwice => {
            let twice = Reply::Two(codes::NO_ERROR, codes::NO_ERROR);
            store(s, codes::NO_ERROR, twice, Reply::Empty)
        }
        Answer::ReturnsAndSends(code) => store_and_send(s, code),
        Answer::Checked(code) => {
            let code = checked(x, code);
            store(s, code, Reply::One(code), Reply::Empty)
        }
        Answer::Sends(v) => send(s, Reply::One(v)),
        Answer::SendsSample => send(s, Reply::One(x)),
        Answer::SendsLevel => send(s, Reply::One(level_byte(x))),
        Answer::SendsEprom => send(s, Reply::Eprom),
        Answer::SendsSerial => send(s, Reply::Serial),
        Answer::SendsTimings => send(s, Reply::Timings),
        Answer::SendsPacket => send(s, Reply::Packet),
        Answer::SendsLow => send(s, Reply::Low),
        Answer::ReturnsThenLow => {
            let with_code = Reply::OneThenLow(codes::NO_ERROR);
            store(s, codes::NO_ERROR, with_code, Reply::Low)
        }
    }
}

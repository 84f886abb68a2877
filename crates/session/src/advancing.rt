// One step of a replay, with the codes that its event returned.
ghost use Rattle.std.specs.Prelude.{◌≡◌, ◌+◌, ◌^◌, ◌≤◌, ◌<◌, length};
ghost use Rattle.transcript.specs.Transcript.{most_output};
ghost use Rattle.session.specs.Runs.{entered, event_step, step_of};
ghost use Rattle.session.specs.Next.{first_call, codes_at, next_of};
ghost use Rattle.session.specs.Inner.{StepDone};

use crate::next::{Next, next_at};
use crate::replay::{Advanced, Cursor, Ran, entered, lent, replaced};
use crate::steps::{last, pass, stop};
use bridge::Bridge;
use effects::Returned;
use records::contents::{Received, event_of};
use refusals::Refusal;
use transcript::events::take_event;

// A step that no event's codes come with.
fn codeless(ran: Ran) -> Advanced
    ensures { result ≡ record { ran = ran; returned = Returned.Nothing } }
{
    Advanced {
        ran,
        returned: Returned::Nothing,
    }
}

// The first event of a body, which goes from a place to an end, with the samples unread. The caller shows room for any event's output.
fn take_first(
    c: Cursor,
    received: Received,
    start: usize,
    end: usize,
    body: &[u8],
    samples: &[u8],
    out: &mut [u8],
) -> Advanced
    requires { (most_output ≤ length out.old) × (0 < length body.now) × (start + 1 < 2 ^ 64) × (c.sample + length samples.now < 2 ^ 64) }
    ensures { StepDone (event_step (entered c start end) (first_call c.bridge received body.now samples.now).answer.outcome (first_call c.bridge received body.now samples.now)) (first_call c.bridge received body.now samples.now).answer.codes out.old out.new result }
{
    let s = c.bridge.state;
    if !registers::in_range(s) {
        return codeless(stop(Refusal::Ranges, start, out));
    }
    let event = event_of(received, body[0]);
    match take_event(s, event, samples, out) {
        Ok(done) => {
            let cursor = Cursor {
                bridge: Bridge { state: done.state },
                at: start + 1,
                end,
                sample: c.sample + done.used,
                sampled: c.sampled,
                done: false,
            };
            let ran = Ran {
                cursor,
                written: done.written,
                steps: 1,
            };
            Advanced {
                ran,
                returned: done.returned,
            }
        }
        Err(why) => codeless(stop(why, start, out)),
    }
}

// The next step. The caller shows room for any event's output. (Beside `steps::step`, which goes over a body's events in one loop: by one
// function for both the replay took about 5 percent more instructions.)
pub(crate) fn step_once(c: Cursor, session: &[u8], out: &mut [u8]) -> Advanced
    requires { most_output ≤ length out.old }
    ensures { StepDone (step_of session.now c) (codes_at session.now c (next_of session.now c.at c.end)) out.old out.new result }
{
    match next_at(session, c.at, c.end) {
        Ok(
            Next::Event {
                received,
                start,
                end,
            },
        ) => take_first(
            c,
            received,
            start,
            end,
            &session[start..end],
            lent(session, c),
            out,
        ),
        Ok(Next::Empty { start, end }) => codeless(pass(entered(c, start, end))),
        Ok(Next::Samples { start, end }) => codeless(pass(replaced(c, start, end))),
        Ok(Next::End) => codeless(last(c, out)),
        Err(stopped) => codeless(stop(stopped.why, stopped.place, out)),
    }
}

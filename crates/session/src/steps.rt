// The steps of a replay: the events of a body, or a record that has none.
ghost use Rattle.std.specs.Prelude.{◌≡◌, false, ◌≤◌, ◌<◌, length};
ghost use Rattle.transcript.specs.Transcript.{last_of, most_output};
ghost use Rattle.session.specs.Runs.{finished, one_step, stopped, RanSteps};
ghost use Rattle.session.specs.Inner.{Goes, CanStep, Entering};

use crate::next::{Next, next_at};
use crate::replay::{Cursor, Ran, ended, entered, lent, replaced};
use bridge::Bridge;
use records::contents::Received;
use refusals::Refusal;
use transcript::{events, output};

// The run ends here with a refusal and its place. The caller shows room for its record.
pub(crate) fn stop(why: Refusal, place: usize, out: &mut [u8]) -> Ran
    requires { 10 ≤ length out.old }
    ensures { RanSteps (stopped why place) out.old out.new result }
{
    let written = output::put_refusal(out, why, place);
    let cursor = ended();
    Ran {
        cursor,
        written,
        steps: 1,
    }
}

// The run ends here with the last record. The caller shows room for it.
pub(crate) fn last(c: Cursor, out: &mut [u8]) -> Ran
    requires { 5 ≤ length out.old }
    ensures { RanSteps (one_step finished (last_of c.bridge.state.wait)) out.old out.new result }
{
    let s = c.bridge.state;
    let w = s.wait;
    let written = output::put_last(out, w);
    let cursor = ended();
    Ran {
        cursor,
        written,
        steps: 1,
    }
}

// A step that writes nothing.
pub(crate) fn pass(cursor: Cursor) -> Ran
    ensures { result ≡ record { cursor = cursor; written = 0; steps = 1 } }
{
    Ran {
        cursor,
        written: 0,
        steps: 1,
    }
}

// The events of a body, which is handed on as that part of the file, with the samples unread; at most as many as the budget has. The
// caller shows that the next step is its first event, and that there is room for it.
fn play(
    c: Cursor,
    received: Received,
    start: usize,
    end: usize,
    session: &[u8],
    budget: usize,
    out: &mut [u8],
) -> Ran
    requires { CanStep budget session.now c out.old × Entering session.now c received start end }
    ensures { Goes budget session.now c out.old out.new result }
{
    let s = c.bridge.state;
    let r = events::run_events(
        s,
        received,
        &session[start..end],
        budget,
        lent(session, c),
        out,
    );
    let read = r.read;
    let n = r.written;
    if let Err(why) = r.outcome {
        let m = output::put_refusal(&mut out[n..], why, start + read);
        let cursor = ended();
        return Ran {
            cursor,
            written: n + m,
            steps: read + 1,
        };
    }
    let cursor = Cursor {
        bridge: Bridge { state: r.state },
        at: start + read,
        end,
        sample: c.sample + r.used,
        sampled: c.sampled,
        done: false,
    };
    Ran {
        cursor,
        written: n,
        steps: read,
    }
}

// The next step, the rest of a body or a record that has no event; one that can't be taken ends the run there. The caller shows that
// the replay is not over, that there is a step to make, and that there is room for any event's output.
pub(crate) fn step(c: Cursor, session: &[u8], budget: usize, out: &mut [u8]) -> Ran
    requires { (c.done ≡ false) × (0 < budget) × (most_output ≤ length out.old) }
    ensures { Goes budget session.now c out.old out.new result }
{
    match next_at(session, c.at, c.end) {
        Ok(
            Next::Event {
                received,
                start,
                end,
            },
        ) => play(c, received, start, end, session, budget, out),
        Ok(Next::Empty { start, end }) => pass(entered(c, start, end)),
        Ok(Next::Samples { start, end }) => pass(replaced(c, start, end)),
        Ok(Next::End) => last(c, out),
        Err(stopped) => stop(stopped.why, stopped.place, out),
    }
}

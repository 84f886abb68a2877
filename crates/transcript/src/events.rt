// The events of a body: one, and one after another.
ghost use Rattle.std.specs.Prelude.{◌≡◌, ◌≤◌, ◌<◌, length};
ghost use Rattle.registers.specs.Ranges.{InRange};
ghost use Rattle.records.specs.Contents.{events_of};
ghost use Rattle.transcript.specs.Transcript.{call_of, most_output};
ghost use Rattle.transcript.specs.Events.{bridge_of, EventDone, progress_of, Reached};

use crate::{MOST_OUTPUT, output};
use bridge::measuring::measure;
use effects::Returned;
use records::contents::{Received, event_of};
use refusals::Refusal;
use registers::{Event, State};

// What an event left: the new state, the samples used and the bytes written, and the codes that it returned.
#[derive(Clone, Copy)]
pub struct Done {
    pub state: State,
    pub used: usize,
    pub written: usize,
    pub returned: Returned,
}

// How far the events of a body got: the state, the events taken, the samples used and the bytes written, and whether the next event
// was refused.
#[derive(Clone, Copy)]
pub struct Reach {
    pub state: State,
    pub read: usize,
    pub used: usize,
    pub written: usize,
    pub outcome: Result<(), Refusal>,
}

// An event with the samples unread; its records go to the front of the output, where a refused one leaves all as it was. The caller
// shows that the state breaks no range and that there is room for any event's output.
pub fn take_event(s: State, event: Event, samples: &[u8], out: &mut [u8]) -> Result<Done, Refusal>
    requires { InRange s × (most_output ≤ length out.old) }
    ensures { EventDone (call_of (bridge_of s) event samples.now) samples.now out.old out.new result }
{
    let r = measure(s, event, samples, 0);
    if !wire::fits(samples.len(), 0, r.used) {
        return Err(Refusal::Samples);
    }
    let at = output::put_actions(out, r.page, r.wave, samples);
    let written = output::put_replies(out, at, r.state, r.reply, r.size);
    Ok(Done {
        state: r.state,
        used: r.used,
        written,
        returned: r.returned,
    })
}

// The events of a body one after another, at most so many, while there is room for any event's output. The caller shows that there is
// at first, that the body has so many, and that the state breaks no range if there is an event.
fn run_in_range(
    s: State,
    received: Received,
    body: &[u8],
    most: usize,
    samples: &[u8],
    out: &mut [u8],
) -> Reach
    requires { (0 < length body.now → InRange s) × (most ≤ length body.now) }
    ensures { Reached (progress_of most (length out.old) (events_of received body.now) (bridge_of s) samples.now) (events_of received body.now) samples.now out.old out.new result }
{
    let mut state = s;
    let mut used: usize = 0;
    let mut written: usize = 0;
    for read in 0..most {
        if out.len() - written < MOST_OUTPUT {
            return Reach {
                state,
                read,
                used,
                written,
                outcome: Ok(()),
            };
        }
        let event = event_of(received, body[read]);
        match take_event(state, event, &samples[used..], &mut out[written..]) {
            Ok(done) => {
                state = done.state;
                used += done.used;
                written += done.written;
            }
            Err(why) => {
                return Reach {
                    state,
                    read,
                    used,
                    written,
                    outcome: Err(why),
                };
            }
        }
    }
    Reach {
        state,
        read: most,
        used,
        written,
        outcome: Ok(()),
    }
}

// The same from any state, with at most as many events as the budget has. The caller shows that the budget is not 0 and that there is
// room for any event's output.
pub fn run_events(
    s: State,
    received: Received,
    body: &[u8],
    budget: usize,
    samples: &[u8],
    out: &mut [u8],
) -> Reach
    requires { (0 < budget) × (most_output ≤ length out.old) }
    ensures { Reached (progress_of budget (length out.old) (events_of received body.now) (bridge_of s) samples.now) (events_of received body.now) samples.now out.old out.new result }
{
    if (0 < body.len()) & !registers::in_range(s) {
        return Reach {
            state: s,
            read: 0,
            used: 0,
            written: 0,
            outcome: Err(Refusal::Ranges),
        };
    }
    run_in_range(s, received, body, body.len().min(budget), samples, out)
}

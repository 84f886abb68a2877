// Drives `step` with the events of standard input and writes what each call answers. An event is its kind (0 a byte, 1 a line
// fault), its value, how many samples it is lent, and these. An answer is the outcome (0 taken, else the refusal's number), the
// samples used, the reply bytes' and the actions' number (the last in two bytes), the reply bytes and the actions.
#![tactic(auto)]

use bridge::{Bridge, Stepped};
use refusals::Refusal;
use registers::{Event, Fault, Shared, State};
use streams::say;

const USAGE: &[u8] =
    b"usage: drive\nPuts the events of standard input through the bridge's call and writes what each call answers.\n";

// The factory start of a session, but for a version and a serial number whose bytes can be told apart.
fn start() -> Bridge {
    let state = switch_on::factory_start().state;
    let shared = Shared {
        version: 0x12,
        serial: [0xA1, 0xB2, 0xC3, 0xD4],
        ..state.shared
    };
    Bridge {
        state: State { shared, ..state },
    }
}

// An event by this input's own numbers; a value that is no fault's code counts as parity.
fn event(kind: u8, value: u8) -> Event {
    match kind {
        0 => Event::Byte(value),
        _ => Event::Fault(Fault::try_from(value).unwrap_or(Fault::Parity)),
    }
}

// (`export` has the same for C; four lines are no reason for this program to stand on it.)
fn number(outcome: Result<(), Refusal>) -> u8 {
    match outcome {
        Ok(()) => 0,
        Err(why) => u8::from(why),
    }
}

// Writes a call's answer: what it counts can't be more than the buffers hold.
fn show(r: Stepped, replies: &[u8], actions: &[u8]) -> Option<()> {
    let sampled = u8::try_from(r.samples).ok()?;
    let sent = u8::try_from(r.replies).ok()?;
    let acted = u16::try_from(r.actions).ok()?;
    let replies = replies.get(..r.replies)?;
    let actions = actions.get(..4 * usize::from(acted))?;
    let [low, high] = acted.to_le_bytes();
    say(&[number(r.outcome), sampled, sent, low, high]);
    say(replies);
    say(actions);
    Some(())
}

// One call, with buffers of its own.
fn call(b: Bridge, e: Event, samples: &[u8]) -> Bridge {
    let mut actions = [0u8; 2048];
    let mut replies = [0u8; 64];
    let r = b.step(e, samples, 0, &mut actions, 0, &mut replies, 0);
    show(r, &replies, &actions);
    r.bridge
}

// Every event of the input. (Beside the walk in `cases`: a pattern is all that they share.)
fn drive(events: &[u8]) {
    let mut b = start();
    let mut left = events;
    while let [kind, value, size, rest @ ..] = left {
        let Some((samples, others)) = rest.split_at_checked(usize::from(*size)) else {
            return;
        };
        b = call(b, event(*kind, *value), samples);
        left = others;
    }
}

fn main(rt: HostRuntime) {
    if !input::goes_on(&rt, USAGE, b"") {
        return;
    }
    let mut events = io::large_buffer();
    let n = io::read_full(0, &mut events);
    drive(&events[..n]);
}

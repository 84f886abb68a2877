// What C links by the crate export_c: include/bridge.h. A state goes by its bytes, and every answer but the number by a pointer.
#![tactic(auto)]

ghost use Rattle.std.specs.Prelude.{◌≡◌};
ghost use Rattle.bridge.specs.Answering.{lent};
ghost use Rattle.export.specs.Exported.{start_call, start_gives, step_call, step_gives, judge_asked, judge_answer, judge_gives, device_of, switch_call, switch_gives};
ghost use Rattle.export.specs.Replaying.{c_cursor, replay_call, Replays};

mod answers;
mod arguments;

use answers::TAKEN;
use grammar::Verdict;
use refusals::Refusal;
use state_bytes::{decoding, encoding};

// The state that every session starts with goes to `state`.
#[tactic(auto, unfolding(crate::specs::Exported::start_gives))]
pub fn bridge_factory_start(state: &mut [u8]) -> u8
    ensures { start_call result state.new ≡ start_gives state.old }
{
    if state.len() != decoding::SIZE {
        return u8::from(Refusal::Ranges);
    }
    encoding::store(state, switch_on::factory_start().state);
    TAKEN
}

// One event, by its kind and its value.
#[tactic(auto, using(state_bytes::proofs::Back::state_facts), unfolding(crate::specs::Exported::step_gives))]
pub fn bridge_step(
    state: &mut [u8],
    kind: u8,
    value: u8,
    samples: &[u8],
    sampled: usize,
    actions: &mut [u8],
    acted: usize,
    replies: &mut [u8],
    replied: usize,
    used: &mut usize,
    sent: &mut usize,
    made: &mut usize,
) -> u8
    ensures { step_call result state.new actions.new replies.new used.new sent.new made.new ≡ step_gives state.old kind value (lent samples.now sampled actions.old acted replies.old replied) }
{
    *used = 0;
    *sent = 0;
    *made = 0;
    let b = match arguments::bridge_in(state) {
        Ok(b) => b,
        Err(why) => return u8::from(why),
    };
    match arguments::event_of(kind, value) {
        Ok(event) => {
            let x = b.step(event, samples, sampled, actions, acted, replies, replied);
            *used = x.samples;
            *sent = x.replies;
            *made = x.actions;
            answers::finish(state, x)
        }
        Err(why) => u8::from(arguments::no_event(
            b.state,
            why,
            samples.len(),
            sampled,
            actions.len(),
            acted,
            replies.len(),
            replied,
        )),
    }
}

// The verdict on command bytes from a start.
fn judge(state: &[u8], bytes: &[u8]) -> Result<Verdict, Refusal>
    ensures { result ≡ judge_asked state.now bytes.now }
{
    arguments::bridge_in(state)?.judge(bytes)
}

// Judges command bytes from a start.
#[tactic(auto, unfolding(crate::specs::Exported::judge_gives))]
pub fn bridge_judge(
    state: &[u8],
    bytes: &[u8],
    verdict: &mut u8,
    place: &mut usize,
    code: &mut u8,
) -> u8
    ensures { judge_answer result verdict.new place.new code.new ≡ judge_gives state.now bytes.now verdict.old place.old code.old }
{
    match judge(state, bytes) {
        Ok(v) => {
            let (number, at, told) = answers::in_numbers(v);
            *verdict = number;
            *place = at;
            *code = told;
            TAKEN
        }
        Err(why) => u8::from(why),
    }
}

// Switches on from two images of settings.
#[tactic(auto, unfolding(crate::specs::Exported::switch_gives))]
pub fn bridge_switch_on<'a>(
    stored: &'a [u8],
    factory: &'a [u8],
    cycles: u8,
    version: u8,
    serial: u32,
    state: &mut [u8],
    actions: &mut [u8],
    acted: usize,
    made: &mut usize,
) -> u8
    ensures { switch_call result state.new actions.new made.new ≡ switch_gives stored.now factory.now (device_of cycles version serial) state.old actions.old acted }
{
    *made = 0;
    if state.len() != decoding::SIZE {
        return u8::from(Refusal::Ranges);
    }
    let d = arguments::device(cycles, version, serial);
    let x = switch_on::switch_on(stored, factory, d, actions, acted);
    *made = x.actions;
    encoding::store(state, x.bridge.state);
    answers::number(x.outcome)
}

// Replays a session as far as surely fits into the output; the cursor is changed to where to go on.
pub fn bridge_replay(
    state: &mut [u8],
    at: &mut usize,
    end: &mut usize,
    sample: &mut usize,
    sampled: &mut usize,
    done: &mut u8,
    session: &[u8],
    output: &mut [u8],
    written: &mut usize,
) -> u8
    ensures { Replays session.now (c_cursor state.old at.old end.old sample.old sampled.old done.old) output.old (replay_call result (c_cursor state.new at.new end.new sample.new sampled.new done.new) output.new written.new) }
{
    *written = 0;
    let c = match arguments::cursor_of(state, *at, *end, *sample, *sampled, *done) {
        Ok(c) => c,
        Err(why) => return u8::from(why),
    };
    let r = session::replay::run(c, session, output);
    let next = r.cursor;
    *at = next.at;
    *end = next.end;
    *sample = next.sample;
    *sampled = next.sampled;
    *done = encoding::mark(next.done);
    *written = r.written;
    encoding::store(state, next.bridge.state);
    TAKEN
}

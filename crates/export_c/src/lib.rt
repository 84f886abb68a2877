// The functions of include/bridge.h by the names that C links: each is the one of its name in the crate export.
#![tactic(auto)]

ghost use Rattle.std.specs.Prelude.{◌≡◌};
ghost use Rattle.bridge.specs.Answering.{lent};
ghost use Rattle.export.specs.Exported.{start_call, start_gives, step_call, step_gives, judge_answer, judge_gives, device_of, switch_call, switch_gives};
ghost use Rattle.export.specs.Replaying.{c_cursor, replay_call, Replays};

// The state that every session starts with goes to `state`.
#[unsafe(no_mangle)]
pub extern "C" fn bridge_factory_start(state: &mut [u8]) -> u8
    ensures { start_call result state.new ≡ start_gives state.old }
{
    export::bridge_factory_start(state)
}

// One event, by its kind and its value.
#[unsafe(no_mangle)]
pub extern "C" fn bridge_step(
    state: &mut [u8],
    kind: u8,
    value: u8,
    samples: &[u8],
    sampled: usize,
    actions: &mut [u8],
    acted: usize,
    replies: &mut [u8],
    replied: usize,
    used: &mut usize,
    sent: &mut usize,
    made: &mut usize,
) -> u8
    ensures { step_call result state.new actions.new replies.new used.new sent.new made.new ≡ step_gives state.old kind value (lent samples.now sampled actions.old acted replies.old replied) }
{
    export::bridge_step(
        state, kind, value, samples, sampled, actions, acted, replies, replied, used, sent, made,
    )
}

// Judges command bytes from a start.
#[unsafe(no_mangle)]
pub extern "C" fn bridge_judge(
    state: &[u8],
    bytes: &[u8],
    verdict: &mut u8,
    place: &mut usize,
    code: &mut u8,
) -> u8
    ensures { judge_answer result verdict.new place.new code.new ≡ judge_gives state.now bytes.now verdict.old place.old code.old }
{
    export::bridge_judge(state, bytes, verdict, place, code)
}

// Switches on from two images of settings.
#[unsafe(no_mangle)]
pub extern "C" fn bridge_switch_on<'a>(
    stored: &'a [u8],
    factory: &'a [u8],
    cycles: u8,
    version: u8,
    serial: u32,
    state: &mut [u8],
    actions: &mut [u8],
    acted: usize,
    made: &mut usize,
) -> u8
    ensures { switch_call result state.new actions.new made.new ≡ switch_gives stored.now factory.now (device_of cycles version serial) state.old actions.old acted }
{
    export::bridge_switch_on(
        stored, factory, cycles, version, serial, state, actions, acted, made,
    )
}

// Replays a session as far as surely fits into the output; the cursor is changed to where to go on.
#[unsafe(no_mangle)]
pub extern "C" fn bridge_replay(
    state: &mut [u8],
    at: &mut usize,
    end: &mut usize,
    sample: &mut usize,
    sampled: &mut usize,
    done: &mut u8,
    session: &[u8],
    output: &mut [u8],
    written: &mut usize,
) -> u8
    ensures { Replays session.now (c_cursor state.old at.old end.old sample.old sampled.old done.old) output.old (replay_call result (c_cursor state.new at.new end.new sample.new sampled.new done.new) output.new written.new) }
{
    export::bridge_replay(
        state, at, end, sample, sampled, done, session, output, written,
    )
}

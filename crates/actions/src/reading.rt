// An action read from its four bytes.
ghost use Rattle.std.specs.Prelude.{◌≡◌};
ghost use Rattle.wire.specs.Sample.{is_sampling};
ghost use Rattle.actions.specs.Reading.{action_of, action_at, is_wait, wait_of};

use wire::{
    ACTION_BYTES, Action, VERB_SAMPLE_LINE, VERB_SAMPLE_PORT, VERB_WAIT_CYCLES,
    VERB_WAIT_MICROSECONDS, VERB_WAIT_MILLISECONDS,
};

// The action of four bytes.
pub fn action_of(bytes: [u8; ACTION_BYTES]) -> Action
    ensures { result ≡ action_of bytes }
{
    let [verb, line, low, high] = bytes;
    Action {
        verb,
        line,
        value: u16::from_le_bytes([low, high]),
    }
}

// The action whose bytes start at a place; there is none where four bytes are not left.
pub fn action_at(actions: &[u8], at: usize) -> Option<Action>
    ensures { result ≡ action_at actions.now at }
{
    let bytes = actions.get(at..)?.first_chunk()?;
    Some(action_of(*bytes))
}

// Whether an action takes one of the samples.
pub fn is_sample(a: Action) -> bool
    ensures { result ≡ is_sampling a.verb }
{
    matches!(a.verb, VERB_SAMPLE_LINE | VERB_SAMPLE_PORT)
}

pub fn is_wait(a: Action) -> bool
    ensures { result ≡ is_wait a.verb }
{
    matches!(
        a.verb,
        VERB_WAIT_MICROSECONDS | VERB_WAIT_MILLISECONDS | VERB_WAIT_CYCLES
    )
}

// How many microseconds a wait takes, an IOG cycle taken as one; what is no wait takes none.
pub fn wait_of(a: Action) -> u64
    ensures { result ≡ wait_of a }
{
    let value = a.value as u64;
    match a.verb {
        VERB_WAIT_MICROSECONDS => value,
        VERB_WAIT_MILLISECONDS => value * 1000,
        VERB_WAIT_CYCLES => value,
        _ => 0,
    }
}

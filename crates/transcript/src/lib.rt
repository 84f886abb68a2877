// The transcript of a replay: an event taken and its records written, one event or one after another, and the last record.
#![tactic(auto)]

pub mod events;
pub mod output;

// The most reply bytes of an event.
const MOST_REPLIES: usize = 10;

// The most actions of an event: an exchange's, four a bit and one before.
const MOST_ACTIONS: usize = 1 + 4 * (packet::WIDTH as usize);

// The most bytes that an event writes: its actions and replies with their headers. A call with less room does nothing; room for them is
// no invariant of a type, since `run` and `advance` answer any buffer, so what comes after their test asks for it.
pub const MOST_OUTPUT: usize = 4 + 4 * MOST_ACTIONS + 4 + MOST_REPLIES;

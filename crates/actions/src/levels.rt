// What the actions of an event make of a line's level.
ghost use Rattle.std.specs.Prelude.{◌≡◌, option_map};
ghost use Rattle.actions.specs.Reading.{actions_in};
ghost use Rattle.actions.specs.Levels.{driven_level, first_of, sampled_next, first_driven};

use crate::reading::{action_of, wait_of};
use wire::{Action, VERB_DRIVE_HIGH, VERB_DRIVE_LOW, VERB_RELEASE, VERB_SAMPLE_LINE};

// A wait of more than so many microseconds beside a sample shows the sampled level only so near to it.
pub const NEAR: u64 = 30;

// A level as a dump writes it: low, high, and that of a line that is not driven.
pub const LOW: u8 = b'0';

pub const HIGH: u8 = b'1';

pub const FREE: u8 = b'z';

// The level that an action drives its line to; one that drives none leaves it free.
pub fn driven_level(a: Action) -> u8
    ensures { result ≡ driven_level a.verb }
{
    match a.verb {
        VERB_DRIVE_LOW => LOW,
        VERB_DRIVE_HIGH => HIGH,
        _ => FREE,
    }
}

// An action of a line, and how many microseconds are waited right before it.
#[derive(Clone, Copy)]
struct Found {
    action: Action,
    waited: u64,
}

// The first action of a line with a verb from one to another; none if there is none.
fn first_of(actions: &[u8], line: usize, least: u8, most: u8) -> Option<Found>
    ensures { option_map (λ f. (f.action, f.waited)) result ≡ first_of line least most 0 (actions_in actions.now) }
{
    let mut waited: u64 = 0;
    let mut left = actions;
    while let Some((bytes, after)) = left.split_first_chunk() {
        let action = action_of(*bytes);
        if (action.line as usize == line) & (least <= action.verb) & (action.verb <= most) {
            return Some(Found { action, waited });
        }
        waited = wait_of(action);
        left = after;
    }
    None
}

// Whether the next thing that happens to a line is a sample, with no long wait right before it.
pub fn is_sampled(actions: &[u8], line: usize) -> bool
    ensures { result ≡ sampled_next line (actions_in actions.now) }
{
    match first_of(actions, line, VERB_RELEASE, VERB_SAMPLE_LINE) {
        Some(next) => (next.action.verb == VERB_SAMPLE_LINE) & (next.waited <= NEAR),
        None => false,
    }
}

// The level that actions first drive a line to, if they drive it.
pub fn first_driven(actions: &[u8], line: usize) -> Option<u8>
    ensures { result ≡ first_driven line (actions_in actions.now) }
{
    let first = first_of(actions, line, VERB_DRIVE_LOW, VERB_DRIVE_HIGH)?;
    Some(driven_level(first.action))
}

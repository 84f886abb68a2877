// The waveform of an event.
ghost use Rattle.std.specs.Prelude.{◌<◌, OnSome};

use crate::dump::{Dump, LINES};
use actions::levels::{HIGH, LOW, NEAR, driven_level, is_sampled};
use actions::reading::{action_at, action_of, is_sample, is_wait, wait_of};
use wire::{
    Action, LINE_PORT_B, LINE_PORT_C, VERB_DIRECTION, VERB_DRIVE_HIGH, VERB_DRIVE_LOW, VERB_LATCH,
    VERB_RELEASE, VERB_SAMPLE_LINE,
};

// The variable of a port's direction; that of its latch comes after it.
fn direction_of(port: u8) -> usize
    ensures { result < 15 }
{
    match port {
        LINE_PORT_B => 9,
        LINE_PORT_C => 11,
        _ => 13,
    }
}

impl<'a> Dump<'a> {
    // The level that the next sample of the event shows. An event samples one line only, so its next sample is that line's.
    fn next_level(&self) -> u8 {
        if wire::level_at(self.session, self.sample) == 0 {
            LOW
        } else {
            HIGH
        }
    }

    // A line that is not driven shows the level that is sampled next, if that comes before anything else on it, or is free.
    fn show_free(&mut self, line: usize, actions: &[u8]) {
        if self.is_driven(line) {
            return;
        }
        let level = if is_sampled(actions, line) {
            self.next_level()
        } else {
            self.free_level(line)
        };
        self.set(line, level);
    }

    // The same of every line, for the start of an event and, with no actions ahead, for its end.
    fn show_free_lines(&mut self, actions: &[u8]) {
        for line in 0..LINES {
            self.show_free(line, actions);
        }
    }

    fn drive_by(&mut self, a: Action) {
        let line = a.line as usize;
        self.drive(line, true);
        self.set(line, driven_level(a));
    }

    fn release(&mut self, a: Action, rest: &[u8]) {
        let line = a.line as usize;
        self.drive(line, false);
        self.show_free(line, rest);
    }

    fn samples_free_line(&self, a: Action) -> bool {
        a.verb == VERB_SAMPLE_LINE && !self.is_driven(a.line as usize)
    }

    // A line that is driven keeps its level where it is sampled.
    fn sample(&mut self, a: Action) {
        if self.samples_free_line(a) {
            self.set(a.line as usize, self.next_level());
        }
    }

    // After a sample its line keeps the level, unless another sample of it is ahead.
    fn pass_sample(&mut self, a: Action, rest: &[u8]) {
        self.sample = std::num::wrapping_add_usize(self.sample, 1);
        if is_sampled(rest, a.line as usize) {
            self.sample(a);
        }
    }

    // The line of a sample right before or after a wait, if only what is near of the wait shows the sample's level.
    fn line_near(&self, length: u64, beside: Option<Action>) -> Option<usize>
        ensures { OnSome result (30 < length) }
    {
        let a = beside?;
        if NEAR < length && self.samples_free_line(a) {
            return Some(a.line as usize);
        }
        None
    }

    // A wait between two actions of an event.
    fn wait(&mut self, length: u64, before: Option<Action>, after: Option<Action>) {
        let mut left = length;
        if let Some(line) = self.line_near(left, before) {
            self.go(NEAR);
            self.set(line, self.free_level(line));
            left -= NEAR;
        }
        if let Some(line) = self.line_near(left, after) {
            self.go(left - NEAR);
            self.set(line, self.next_level());
            left = NEAR;
        }
        self.go(left);
    }

    fn write_register(&mut self, a: Action) {
        let direction = direction_of(a.line);
        let variable = if a.verb == VERB_LATCH {
            direction + 1
        } else {
            direction
        };
        self.set(variable, (a.value % 256) as u8);
    }

    // What an action changes at its time, with the actions that come after it.
    fn act(&mut self, a: Action, rest: &[u8]) {
        match a.verb {
            VERB_RELEASE => self.release(a, rest),
            VERB_DRIVE_LOW | VERB_DRIVE_HIGH => self.drive_by(a),
            VERB_SAMPLE_LINE => self.sample(a),
            VERB_DIRECTION | VERB_LATCH => self.write_register(a),
            _ => {}
        }
    }

    // One action with its time, the action before it in the event and those that come after it.
    fn show_action(&mut self, a: Action, before: Option<Action>, rest: &[u8]) {
        if is_wait(a) {
            self.wait(wait_of(a), before, action_at(rest, 0));
            return;
        }
        self.act(a, rest);
        self.go(1);
        if is_sample(a) {
            self.pass_sample(a, rest);
        }
    }

    // An event by its actions.
    pub(crate) fn show_event(&mut self, actions: &[u8]) {
        self.show_free_lines(actions);
        let mut before = None;
        let mut left = actions;
        while let Some((bytes, after)) = left.split_first_chunk() {
            let a = action_of(*bytes);
            self.show_action(a, before, after);
            before = Some(a);
            left = after;
        }
        self.show_free_lines(b"");
    }
}

// The walk through a session, a step of the replay at a time.
use crate::events::{codes_of, say_head, say_left};
use crate::output::{first_record, refusal_in};
use crate::refused::{Refused, say_number_and_place, say_refusal};
use effects::Returned;
use records::contents::event_of;
use records::kinds::OutputKind;
use refusals::Refusal;
use registers::{Event, State};
use session::next::{Next, next_at};
use session::replay::Cursor;
use std::num::wrapping_add_usize;
use transcript::MOST_OUTPUT;
use wording::items::say_wait;
use wording::replies::say_replies;
use wording::text::{Paper, finish, say, say_count};
use wording::waveform::say_actions;

// A session on its paper, and how much of it has been shown.
#[derive(Clone, Copy)]
struct Walk<'a> {
    paper: Paper,
    session: &'a [u8],
    events: usize,
    replies: usize,
    actions: usize,
}

// A step of the replay: where it began, the state that it left, the codes that its event returned, and what it wrote.
#[derive(Clone, Copy)]
struct Step<'a> {
    from: Cursor,
    after: State,
    returned: Returned,
    output: &'a [u8],
}

impl<'a> Walk<'a> {
    // The front of the summary.
    fn say_shown(&self) {
        say_count(self.events, b" event");
        say(b", ");
        say_count(self.replies, b" reply byte");
        say(b", ");
        say_count(self.actions, b" action");
        say(b"; ");
    }

    fn say_end(&self, s: State) {
        self.say_shown();
        say_wait(s);
        finish();
    }

    // A record that an event wrote, of whose replies so many are codes.
    fn show_record(&mut self, kind: OutputKind, body: &[u8], sampled: usize, codes: usize) {
        match kind {
            OutputKind::Actions => {
                say_actions(body, self.session, sampled);
                let actions = body.len() / wire::ACTION_BYTES;
                self.actions = wrapping_add_usize(self.actions, actions);
            }
            OutputKind::Replies => {
                say_replies(self.paper, body, codes);
                self.replies = wrapping_add_usize(self.replies, body.len());
            }
            OutputKind::Last | OutputKind::Refusal => {}
        }
    }

    // An event that the bridge took.
    fn show_event(&mut self, place: usize, e: Event, step: Step<'_>) {
        let s = step.from.bridge.state;
        say_head(self.paper, place, s, e);
        let codes = codes_of(s, e, step.after, step.returned);
        let mut left = step.output;
        while let Some((kind, body, after)) = first_record(left) {
            self.show_record(kind, body, step.from.sample, codes);
            left = after;
        }
        say_left(self.paper, step.after);
        self.events = wrapping_add_usize(self.events, 1);
    }

    // The event that too few samples are left for.
    fn show_untaken(&self, c: Cursor) {
        if let Ok(
            Next::Event {
                received,
                start,
                end: _,
            },
        ) = next_at(self.session, c.at, c.end)
        {
            let e = event_of(received, wire::byte_at(self.session, start));
            say_head(self.paper, start, c.bridge.state, e);
            say(b"\n    ");
        }
    }

    fn show_refusal(&self, r: Refused, c: Cursor) {
        if r.number == u8::from(Refusal::Samples) as usize {
            self.show_untaken(c);
        }
        say_refusal(self.paper, r);
        self.say_shown();
        say_number_and_place(r);
        finish();
    }

    fn show_step(&mut self, step: Step<'_>) {
        let c = step.from;
        if let Some(refused) = refusal_in(step.output) {
            self.show_refusal(refused, c);
            return;
        }
        match next_at(self.session, c.at, c.end) {
            Ok(
                Next::Event {
                    received,
                    start,
                    end: _,
                },
            ) => {
                let e = event_of(received, wire::byte_at(self.session, start));
                self.show_event(start, e, step);
            }
            Ok(Next::End) => self.say_end(c.bridge.state),
            Ok(Next::Empty { .. } | Next::Samples { .. }) | Err(_) => {}
        }
    }
}

// The whole session.
pub(crate) fn show(paper: Paper, session: &[u8]) {
    let mut out = [0u8; MOST_OUTPUT];
    let mut walk = Walk {
        paper,
        session,
        events: 0,
        replies: 0,
        actions: 0,
    };
    let mut cursor = session::replay::start();
    while !cursor.done {
        let made = session::replay::advance(cursor, session, &mut out);
        let next = made.ran.cursor;
        walk.show_step(Step {
            from: cursor,
            after: next.bridge.state,
            returned: made.returned,
            output: &out[..made.ran.written],
        });
        cursor = next;
    }
}

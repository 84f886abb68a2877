// What the next step of a replay is about.
ghost use Rattle.std.specs.Prelude.{◌≡◌};
ghost use Rattle.records.specs.Records.{record_from};
ghost use Rattle.records.specs.Contents.{content_of};
ghost use Rattle.session.specs.Next.{next_body, next_record, next_of};

use records::contents::{Content, Received, content_of};
use records::reading::{Body, MOST_SESSION, record_from};
use refusals::Refusal;

// The first of the events in a body, a body without any, samples, or the session's end.
#[derive(Clone, Copy)]
pub enum Next {
    Event {
        received: Received,
        start: usize,
        end: usize,
    },
    Empty {
        start: usize,
        end: usize,
    },
    Samples {
        start: usize,
        end: usize,
    },
    End,
}

// Why a replay ends before its session does, and the place in the file.
#[derive(Clone, Copy)]
pub struct Stop {
    pub why: Refusal,
    pub place: usize,
}

// A record's body by its kind.
fn next_in(body: Body, bytes: &[u8]) -> Result<Next, Refusal>
    ensures { result ≡ next_body body.start body.end (content_of body.kind bytes.now) }
{
    let Body { kind, start, end } = body;
    match content_of(kind, bytes)? {
        Content::Events(_) if start == end => Ok(Next::Empty { start, end }),
        Content::Events(received) => Ok(Next::Event {
            received,
            start,
            end,
        }),
        Content::Samples => Ok(Next::Samples { start, end }),
    }
}

// What is left of the body up to an end, or the record at a place.
fn next_record(session: &[u8], at: usize, end: usize) -> Result<Next, Refusal>
    ensures { result ≡ next_record session.now (record_from session.now at end) }
{
    match record_from(session, at, end)? {
        Some(body) => next_in(body, &session[body.start..body.end]),
        None => Ok(Next::End),
    }
}

// What is next where a replay stands at a place, in a body up to an end or past it.
#[tactic(auto, unfolding(crate::specs::Next::next_of))]
pub fn next_at(session: &[u8], at: usize, end: usize) -> Result<Next, Stop>
    ensures { result ≡ next_of session.now at end }
{
    if MOST_SESSION < session.len() {
        return Err(Stop {
            why: Refusal::Size,
            place: 0,
        });
    }
    next_record(session, at, end).map_err(|why| Stop { why, place: at })
}

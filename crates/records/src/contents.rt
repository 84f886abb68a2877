// What a session makes of a record's body: events or samples.
ghost use Rattle.std.specs.Prelude.{◌≡◌};
ghost use Rattle.records.specs.Contents.{fault_of, event_of, is_fault, one_fault, content_of};

use crate::kinds::Kind;
use refusals::Refusal;
use registers::{Event, Fault};

// What the line gave: received bytes, or a line fault by its code.
#[derive(Clone, Copy)]
pub enum Received {
    Bytes,
    Fault,
}

// A body's events, one a byte; or samples.
#[derive(Clone, Copy)]
pub enum Content {
    Events(Received),
    Samples,
}

// A line fault by its code; what is no fault's counts as parity.
fn fault_of(code: u8) -> Fault
    ensures { result ≡ fault_of code }
{
    Fault::try_from(code).unwrap_or(Fault::Parity)
}

// The event that a byte of a body stands for.
pub fn event_of(received: Received, byte: u8) -> Event
    ensures { result ≡ event_of received byte }
{
    match received {
        Received::Bytes => Event::Byte(byte),
        Received::Fault => Event::Fault(fault_of(byte)),
    }
}

// Whether a byte is the code of a line fault.
fn is_fault(code: u8) -> bool
    ensures { result ≡ is_fault code }
{
    Fault::try_from(code).is_ok()
}

// Whether a body is one byte that is a fault's code.
fn one_fault(body: &[u8]) -> bool
    ensures { result ≡ one_fault body.now }
{
    body.len() == 1 && is_fault(body[0])
}

// A body by its record's kind: refusals 8 and 9.
pub fn content_of(kind: usize, body: &[u8]) -> Result<Content, Refusal>
    ensures { result ≡ content_of kind body.now }
{
    match Kind::try_from(kind)? {
        Kind::Bytes => Ok(Content::Events(Received::Bytes)),
        Kind::Fault if one_fault(body) => Ok(Content::Events(Received::Fault)),
        Kind::Fault => Err(Refusal::FaultBody),
        Kind::Samples => Ok(Content::Samples),
    }
}

// Writes a session, that of standard input or of the file that the argument names, as a Value Change Dump (IEEE 1364) of the lines
// and the ports' registers.
#![tactic(auto)]

mod dump;
mod waveform;

use actions::levels::{FREE, HIGH, first_driven};
use dump::{Dump, SCK};
use records::kinds::OutputKind;
use records::reading::{MOST_SESSION, record_at};
use value_changes::Unwritten;

const USAGE: &[u8] =
    b"usage: vcd [--pull-up] [FILE]\nWrites the session in FILE, or in standard input, as a Value Change Dump to standard output.\n--pull-up shows a released line high, and the ports bit by bit.\n";

// What is collected goes out; text that can't be written ends the dump.
fn send(d: &mut Dump) -> Result<(), Unwritten> {
    let sent = d.text.flush();
    if sent.is_err() {
        streams::complain(b"standard output: cannot be written\n");
    }
    sent
}

// The session ends here with a refusal, which stands in the dump after all else.
fn refuse(d: &mut Dump, body: &[u8]) -> Result<(), Unwritten> {
    d.stamp();
    let sent = send(d);
    vcd_texts::refusal::say_refusal(body);
    sent
}

// The first record that a step of the replay wrote, by its kind and its body.
fn first_record(records: &[u8]) -> Option<(OutputKind, &[u8])> {
    let Ok(Some(body)) = record_at(records, 0) else {
        return None;
    };
    let kind = OutputKind::try_from(body.kind).ok()?;
    Some((kind, &records[body.start..body.end]))
}

// What a step of the replay wrote: actions are its first record, and the last record and a refusal its only one.
fn show_step(d: &mut Dump, records: &[u8]) -> Result<(), Unwritten> {
    let Some((kind, body)) = first_record(records) else {
        return Ok(());
    };
    match kind {
        OutputKind::Actions => d.show_event(body),
        OutputKind::Last => d.stamp(),
        OutputKind::Refusal => return refuse(d, body),
        OutputKind::Replies => {}
    }
    send(d)
}

// The level that a step first drives SCK to, if it does.
fn clock_in(records: &[u8]) -> Option<u8> {
    match first_record(records)? {
        (OutputKind::Actions, body) => first_driven(body, SCK),
        _ => None,
    }
}

// The level that SCK is first driven to, if it ever is.
fn first_clock(session: &[u8]) -> Option<u8> {
    let mut records = io::buffer();
    let mut cursor = session::replay::start();
    while !cursor.done {
        let r = session::replay::advance(cursor, session, &mut records).ran;
        cursor = r.cursor;
        let clock = clock_in(&records[..r.written]);
        if clock.is_some() {
            return clock;
        }
    }
    None
}

// With pull-ups SCK is shown from the start on as it is first driven, high if it never is, so that the first exchange has no edge too many.
fn clock_level(session: &[u8], pull_up: bool) -> u8 {
    if pull_up {
        first_clock(session).unwrap_or(HIGH)
    } else {
        FREE
    }
}

// Each step of the replay by itself, since the dump goes by events.
fn write_dump(session: &[u8], pull_up: bool) -> Result<(), Unwritten> {
    let mut text = io::large_buffer();
    let mut records = io::buffer();
    let clock = clock_level(session, pull_up);
    let mut d = Dump::begin(pull_up, clock, session, &mut text);
    let mut cursor = session::replay::start();
    while !cursor.done {
        d.sample = cursor.sample;
        let r = session::replay::advance(cursor, session, &mut records).ran;
        cursor = r.cursor;
        show_step(&mut d, &records[..r.written])?;
    }
    Ok(())
}

// One byte more than a session may have is enough to refuse it for its size.
fn main(rt: HostRuntime) {
    if !input::goes_on(&rt, USAGE, b"--pull-up") {
        return;
    }
    let mut buf = [0u8; MOST_SESSION + 1];
    if let Some(session) = input::read(&rt, &mut buf) {
        let _ = write_dump(session, input::option(&rt, b"--pull-up"));
    }
}

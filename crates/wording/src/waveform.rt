// The actions of an event in words.
use crate::text::{say, say_decimal, say_hex};
use actions::reading::{action_of, is_sample};
use std::num::wrapping_add_usize;
use wire::Action;

// How many actions stand in a line: a 1-Wire slot, or all ports anew.
const A_LINE: usize = 6;

fn line_name(line: u8) -> &'static [u8] {
    match line {
        wire::LINE_SCL => b"SCL",
        wire::LINE_SDA => b"SDA",
        wire::LINE_CS => b"CS",
        wire::LINE_SCK => b"SCK",
        wire::LINE_MOSI => b"MOSI",
        wire::LINE_MISO => b"MISO",
        wire::LINE_SS => b"SS",
        wire::LINE_DQ => b"DQ",
        wire::LINE_PB7 => b"PB7",
        wire::LINE_PORT_B => b"port B",
        wire::LINE_PORT_C => b"port C",
        _ => b"port D",
    }
}

// A line and what becomes of it.
fn say_driven(line: u8, how: &[u8]) {
    say(line_name(line));
    say(how);
}

// A port's register and what it then holds.
fn say_stored(line: u8, which: &[u8], value: usize) {
    say(line_name(line));
    say(which);
    say_hex((value % 256) as u8);
}

fn say_waited(value: usize, unit: &[u8]) {
    say(b"wait ");
    say_decimal(value);
    say(unit);
}

// A line's level is what its sample says: 0 for low.
fn say_level(line: u8, sample: u8) {
    say(b"sample ");
    say(line_name(line));
    say(if sample == 0 { b": low" } else { b": high" });
}

// A port's sample is its byte whole.
fn say_pins(line: u8, sample: u8) {
    say(b"sample ");
    say(line_name(line));
    say(b": ");
    say_hex(sample);
}

// An action by its verb; a sampling one comes with its sample.
fn say_action(a: Action, sample: u8) {
    let line = a.line;
    let value = a.value as usize;
    match a.verb {
        wire::VERB_RELEASE => say_driven(line, b" released"),
        wire::VERB_DRIVE_LOW => say_driven(line, b" low"),
        wire::VERB_DRIVE_HIGH => say_driven(line, b" high"),
        wire::VERB_SAMPLE_LINE => say_level(line, sample),
        wire::VERB_WAIT_MICROSECONDS => say_waited(value, b" \xc2\xb5s"),
        wire::VERB_DIRECTION => say_stored(line, b" direction ", value),
        wire::VERB_LATCH => say_stored(line, b" latch ", value),
        wire::VERB_SAMPLE_PORT => say_pins(line, sample),
        wire::VERB_WAIT_MILLISECONDS => say_waited(value, b" ms"),
        _ => say_waited(value, b" IOG cycles"),
    }
}

// What stands before the action of a place in the row of an event's actions.
fn say_gap(place: usize) {
    say(if place % A_LINE == 0 {
        b"\n    "
    } else {
        b", "
    });
}

// The actions of an event, whose samples stand in the session from a place on. (Only some actions take one, so their place is counted.)
pub fn say_actions(actions: &[u8], session: &[u8], sampled: usize) {
    let mut at = sampled;
    for (place, bytes) in actions.as_chunks().0.iter().enumerate() {
        let a = action_of(*bytes);
        say_gap(place);
        say_action(a, wire::byte_at(session, at));
        if is_sample(a) {
            at = wrapping_add_usize(at, 1);
        }
    }
}

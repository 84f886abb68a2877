// An event's block: what came, what the bridge did and replied, and what it then waits for.
use effects::Returned;
use registers::parts::reports_on;
use registers::{Event, Fault, State, is_idle};
use wording::items::{say_byte, say_wait};
use wording::replies::say_error;
use wording::text::{Paper, Style, say, say_decimal, say_hex};

// The command that sends ERROR.
const READ_ERROR: u8 = 0x04;

// A line fault, whose code's words are its name.
fn say_fault(f: Fault) {
    say(b"fault ");
    say(codes::words(u8::from(f)));
}

fn say_received(s: State, byte: u8) {
    say_hex(byte);
    say(b" ");
    say_byte(s, byte);
}

fn say_event(s: State, e: Event) {
    match e {
        Event::Byte(byte) => say_received(s, byte),
        Event::Fault(f) => say_fault(f),
    }
}

// The first line of a block: the place, and what came to a bridge in this state.
pub(crate) fn say_head(paper: Paper, place: usize, s: State, e: Event) {
    paper.styled(Style::Bold, || {
        say_decimal(place);
        say(b": ");
        say_event(s, e);
    });
}

// How many of an event's replies, from the first on, are codes: those that it returned, with reports on. 41 sends the code 40 with
// reports off too.
fn codes_sent(returned: Returned, reports: bool) -> usize {
    match returned {
        Returned::One(codes::NO_CONFIGURATION) => 1,
        Returned::One(_) if reports => 1,
        Returned::Two(_, _) if reports => 2,
        _ => 0,
    }
}

// Whether an event is 04, which sends ERROR, and is not dropped.
fn sends_error(s: State, e: Event) -> bool {
    matches!(e, Event::Byte(READ_ERROR)) && is_idle(s.wait) && !s.drop
}

// How many of the replies to an event, from the first on, are codes, by the states before and after it and the codes that it returned.
// ERROR, which 04 sends, is a code.
pub(crate) fn codes_of(s: State, e: Event, after: State, returned: Returned) -> usize {
    if sends_error(s, e) {
        return 1;
    }
    codes_sent(returned, reports_on(after.page.flags))
}

// The last lines of a block, by the state that the event leaves.
pub(crate) fn say_left(paper: Paper, s: State) {
    say_error(paper, s.page.error);
    say(b"\n    ");
    say_wait(s);
    say(b"\n");
}

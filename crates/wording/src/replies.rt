// Replies in hex, and the device codes among them by name.
use crate::text::{Paper, Style, say, say_hex};

// A device code in words, if it is one.
fn say_meaning(code: u8) {
    let meaning = codes::words(code);
    if meaning.is_empty() {
        return;
    }
    say(b" (");
    say(meaning);
    say(b")");
}

fn say_reply(byte: u8, is_code: bool) {
    say(b" ");
    say_hex(byte);
    if is_code {
        say_meaning(byte);
    }
}

// The reply bytes of an event, so many of which, from the first on, are codes.
pub fn say_replies(paper: Paper, replies: &[u8], codes: usize) {
    say(b"\n    ");
    paper.styled(Style::Green, || {
        say(b"reply");
        for (place, byte) in replies.iter().enumerate() {
            say_reply(*byte, place < codes);
        }
    });
}

// ERROR as an event leaves it, unless it tells of nothing.
pub fn say_error(paper: Paper, error: u8) {
    if error == 0 {
        return;
    }
    say(b"\n    ");
    paper.styled(Style::Red, || {
        say(b"ERROR ");
        say_hex(error);
        say_meaning(error);
    });
}

// Text on standard output.
pub(crate) use streams::say;
use streams::{say_decimal, say_hex};

// A word, and a number after it.
pub(crate) fn say_number(word: &[u8], n: usize) {
    say(word);
    say_decimal(n);
}

// A word, and bytes after it in hex.
pub(crate) fn say_bytes(word: &[u8], bytes: &[u8]) {
    say(word);
    for byte in bytes {
        say_hex(*byte);
    }
}

// The number of a refusal.
pub(crate) fn say_refused(number: u8) {
    say_number(b"refused ", usize::from(number));
}

// Assembles the stored scripts of the file that the argument names and writes a line for each: how many bytes it makes and a sum
// of them, or what is wrong with it. A script is its length (16 bits, little-endian) and its text.
#![tactic(auto)]

use records::reading::MOST_SESSION;
use streams::{STDOUT, say, say_decimal};

const USAGE: &[u8] =
    b"usage: scripts [FILE]\nAssembles each script in FILE, or in standard input, and says what it makes or what is wrong with it.\n";

// Each byte times its place from 1, in 16 bits: from the end on, the sum of the sums so far.
fn sum(bytes: &[u8]) -> u16 {
    let mut total: u16 = 0;
    let mut tail: u16 = 0;
    for byte in bytes.iter().rev() {
        tail = tail.wrapping_add(u16::from(*byte));
        total = total.wrapping_add(tail);
    }
    total
}

fn say_good(session: &[u8]) {
    say(b"good ");
    say_decimal(session.len());
    say(b" ");
    say_decimal(usize::from(sum(session)));
    say(b"\n");
}

fn show(text: &[u8]) {
    let mut session = [0u8; MOST_SESSION];
    let r = script::assemble(text, &mut session);
    match r.outcome {
        Ok(()) => say_good(&session[..r.size]),
        Err(wrong) => explain::explain(STDOUT, text, wrong),
    }
}

// Every script of the file; one that is cut short is the last. (Beside the walk in `cases`: a pattern is all that they share.)
fn show_all(file: &[u8]) {
    let mut scripts = file;
    while let [low, high, rest @ ..] = scripts {
        let size = usize::from(u16::from_le_bytes([*low, *high]));
        let Some((text, others)) = rest.split_at_checked(size) else {
            say(b"cut short\n");
            return;
        };
        show(text);
        scripts = others;
    }
}

fn main(rt: HostRuntime) {
    if !input::goes_on(&rt, USAGE, b"") {
        return;
    }
    let mut buf = [0u8; 262144];
    if let Some(file) = input::read_shorter(&rt, &mut buf, b"scripts: more than 262,143 bytes\n") {
        show_all(file);
    }
}

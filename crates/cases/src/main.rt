// Answers the stored cases of the file that the argument names and writes a line for each. A case is its kind, its length (16 bits,
// little-endian) and its body: kind 1 asks the judge, 2 switches on, and 3 replays a session.
#![tactic(auto)]

mod judged;
mod replayed;
mod switched;
mod text;

use text::say;

const USAGE: &[u8] =
    b"usage: cases [FILE]\nAnswers each stored case of a judge, a switch-on or a replay in FILE, or in standard input.\n";

// A case by this file's own numbers.
fn show(kind: u8, case: &[u8]) {
    match kind {
        1 => judged::show(case),
        2 => switched::show(case),
        3 => replayed::show(case),
        _ => say(b"unknown kind\n"),
    }
}

// Every case of the file; one that is cut short is the last. (`scripts` and `drive` go over their items in the same
// way: what they share is a pattern and std's `split_at_checked`.)
fn show_all(file: &[u8]) {
    let mut cases = file;
    while let [kind, low, high, rest @ ..] = cases {
        let size = usize::from(u16::from_le_bytes([*low, *high]));
        let Some((case, others)) = rest.split_at_checked(size) else {
            say(b"cut short\n");
            return;
        };
        show(*kind, case);
        cases = others;
    }
}

fn main(rt: HostRuntime) {
    if !input::goes_on(&rt, USAGE, b"") {
        return;
    }
    let mut buf = io::large_buffer();
    if let Some(file) = input::read_shorter(&rt, &mut buf, b"cases: more than 65,535 bytes\n") {
        show_all(file);
    }
}

// Shows the session of standard input, or of a named file, in words: a block for each event, and a summary.
#![tactic(auto)]

mod events;
mod output;
mod refused;
mod walk;

use records::reading::MOST_SESSION;
use wording::text::Paper;

const USAGE: &[u8] =
    b"usage: view [--color] [FILE]\nShows the session in FILE, or in standard input, in words.\n--color shows it in colour.\n";

// One byte more than a session may have is enough to refuse it for its size.
fn main(rt: HostRuntime) {
    if !input::goes_on(&rt, USAGE, b"--color") {
        return;
    }
    let paper = if input::option(&rt, b"--color") {
        Paper::Colored
    } else {
        Paper::Plain
    };
    let mut buf = [0u8; MOST_SESSION + 1];
    if let Some(session) = input::read(&rt, &mut buf) {
        walk::show(paper, session);
    }
}

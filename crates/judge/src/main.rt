// Judges command bytes from the factory start: those of standard input, or of the file that the argument names. Prints `whole`,
// `open` or `wrong at K (CODE)` in a line.
#![tactic(auto)]

use grammar::Verdict;

const USAGE: &[u8] =
    b"usage: judge [FILE]\nSays of the command bytes in FILE, or in standard input, whether they are whole, open or wrong.\n";

fn say(v: Verdict) {
    let mut line = [0u8; verdicts::ROOM];
    let n = verdicts::put_verdict(&mut line, v);
    streams::say(&line[..n]);
}

// The factory start is in range and waits for nothing, so it is never refused.
fn answer(bytes: &[u8]) {
    if let Ok(v) = switch_on::factory_start().judge(bytes) {
        say(v);
    }
}

fn main(rt: HostRuntime) {
    if !input::goes_on(&rt, USAGE, b"") {
        return;
    }
    let mut buf = io::large_buffer();
    if let Some(bytes) = input::read_shorter(&rt, &mut buf, b"judge: more than 65,535 bytes\n") {
        answer(bytes);
    }
}

// Makes a session of a script, which is read from standard input or from the file that the argument names, and writes it to standard
// output. A script that is wrong gets a line on standard error, and nothing is written.
#![tactic(auto)]

use records::reading::MOST_SESSION;
use streams::STDERR;

const USAGE: &[u8] =
    b"usage: assemble [FILE]\nWrites the script in FILE, or in standard input, as a session to standard output.\n";

fn write(rt: &HostRuntime, text: &[u8]) {
    let mut session = [0u8; MOST_SESSION];
    let r = script::assemble(text, &mut session);
    match r.outcome {
        Ok(()) => {
            if let Err(why) = rt.write_all(&session[..r.size]) {
                input::fail(rt, b"standard output", why);
            }
        }
        Err(wrong) => explain::explain(STDERR, text, wrong),
    }
}

// A script may be eight times as long as the longest session.
fn main(rt: HostRuntime) {
    if !input::goes_on(&rt, USAGE, b"") {
        return;
    }
    let mut buf = [0u8; 262144];
    if let Some(text) = input::read_shorter(&rt, &mut buf, b"assemble: more than 262,143 bytes\n") {
        write(&rt, text);
    }
}

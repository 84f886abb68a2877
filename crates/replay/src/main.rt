// Replays the session of standard input, or of the file that the argument names, and writes its transcript to standard output.
#![tactic(auto)]

ghost use Rattle.std.specs.Prelude.{◌≡◌, false, ◌<◌, ◌≤◌, length};
ghost use Rattle.session.specs.Runs.{left};
ghost use Rattle.transcript.specs.Transcript.{most_output};

use records::reading::MOST_SESSION;
use session::replay::Cursor;

const USAGE: &[u8] =
    b"usage: replay [FILE]\nWrites the transcript of the session in FILE, or in standard input, to standard output.\n";

// The bytes of a chunk of the transcript. Zeroing more costs more than the calls that it saves.
const CHUNK: usize = 16384;

// One call of the run, and its chunk goes out; a chunk that can't be written ends the replay. The caller shows room for a step.
fn write_chunk(rt: &HostRuntime, cursor: Cursor, session: &[u8], out: &mut [u8]) -> Cursor
    requires { most_output ≤ length out.old }
    ensures { cursor.done ≡ false → left session.now result < left session.now cursor }
{
    let r = session::replay::run(cursor, session, out);
    let n = r.written;
    let mut next = r.cursor;
    if let Err(why) = rt.write_all(&out[..n]) {
        input::fail(rt, b"standard output", why);
        next.done = true;
    }
    next
}

fn write_transcript(rt: &HostRuntime, session: &[u8]) {
    let mut out = [0u8; CHUNK];
    let mut cursor = session::replay::start();
    while !cursor.done {
        cursor = write_chunk(rt, cursor, session, &mut out);
    }
}

// One byte more than a session may have is enough to refuse it for its size.
fn main(rt: HostRuntime) {
    if !input::goes_on(&rt, USAGE, b"") {
        return;
    }
    let mut buf = [0u8; MOST_SESSION + 1];
    if let Some(session) = input::read(&rt, &mut buf) {
        write_transcript(&rt, session);
    }
}

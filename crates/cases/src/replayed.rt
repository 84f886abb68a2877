// A case of the replay: the session.
use crate::text::{say, say_bytes};

// The transcript, as far as one call gets.
pub(crate) fn show(session: &[u8]) {
    let mut out = io::large_buffer();
    let r = session::replay::run(session::replay::start(), session, &mut out);
    let n = r.written;
    say_bytes(b"transcript ", &out[..n]);
    if !r.cursor.done {
        say(b" and more");
    }
    say(b"\n");
}

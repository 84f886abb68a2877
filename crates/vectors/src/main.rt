// Runs the stored sessions of the file that the argument names, compares each transcript with the stored one, and prints how
// many were run and how many differ. A vector is the session's length (16 bits) and the transcript's (32 bits), little-endian,
// the session and the transcript.
#![tactic(auto)]

ghost use Rattle.std.specs.Prelude.{◌≡◌, false, ◌<◌, ◌≤◌, length};
ghost use Rattle.input.specs.Front.{IsFront};
ghost use Rattle.session.specs.Runs as runs;

use session::replay::Cursor;
use std::io::Read;
use streams::{say, say_decimal};

const USAGE: &[u8] =
    b"usage: vectors FILE\nRuns the stored sessions in FILE and says how many transcripts differ from the stored ones.\n";

const MOST: usize = 1_000_000;

// Reads to the front of a buffer until it is full or the file ends. A read that fails counts as the end of this one reading, and what was
// read before it counts.
fn read_part<'a, R: Read>(file: &mut R, buf: &'a mut [u8]) -> &'a [u8]
    ensures { IsFront buf.entry result }
{
    input::read_front(file, buf).0
}

// Whether the file goes on with these bytes.
fn goes_on<R: Read>(file: &mut R, chunk: &[u8]) -> bool {
    let mut buf = io::large_buffer();
    chunk.len() <= buf.len() && read_part(file, &mut buf[..chunk.len()]) == chunk
}

// One call of the run, how many bytes of the stored transcript are left behind its chunk, and whether the transcript goes on with it. What
// is longer than stored differs, and none of it is read.
fn compare_chunk<R: Read>(
    c: Cursor,
    left: usize,
    session: &[u8],
    file: &mut R,
) -> (Cursor, usize, bool)
    ensures { c.done ≡ false → runs.left session.now result.0 < runs.left session.now c }
{
    let mut out = io::large_buffer();
    let r = session::replay::run(c, session, &mut out);
    let chunk = &out[..r.written];
    match left.checked_sub(chunk.len()) {
        Some(rest) => (r.cursor, rest, goes_on(file, chunk)),
        None => (r.cursor, left, false),
    }
}

// Passes over so many bytes of the file, so that a vector that differs leaves the next one in its place. Each part goes as far as its reads
// go, and a part that meets the end does not end the others.
fn pass_over<R: Read>(file: &mut R, n: usize) {
    if n == 0 {
        return;
    }
    let mut buf = io::large_buffer();
    let mut left = n;
    while 0 < left {
        let part = left.min(buf.len());
        read_part(file, &mut buf[..part]);
        left -= part;
    }
}

// Whether a session's transcript is the stored one of so many bytes.
fn compare<R: Read>(session: &[u8], stored: usize, file: &mut R) -> bool {
    let mut cursor = session::replay::start();
    let mut left = stored;
    let mut same = true;
    while !cursor.done {
        let (next, rest, goes_on) = compare_chunk(cursor, left, session, file);
        cursor = next;
        left = rest;
        same &= goes_on;
    }
    pass_over(file, left);
    same & (left == 0)
}

// Whether the transcript of the file's next vector is the stored one; none where less than a head is read.
fn next<R: Read>(file: &mut R) -> Option<bool> {
    let mut head = [0u8; 6];
    let [s0, s1, t0, t1, t2, t3] = read_part(file, &mut head) else {
        return None;
    };
    let size = usize::from(u16::from_le_bytes([*s0, *s1]));
    let stored = u32::from_le_bytes([*t0, *t1, *t2, *t3]) as usize;
    let mut buf = io::large_buffer();
    let session = read_part(file, &mut buf[..size]);
    let same = compare(session, stored, file);
    Some(same & (session.len() == size))
}

fn report(run: usize, differ: usize) {
    say_decimal(run);
    say(b" run, ");
    say_decimal(differ);
    say(b" differ\n");
}

// Every vector of the file, up to so many.
fn run_all<R: Read>(file: &mut R) {
    let mut differ: usize = 0;
    for run in 0..MOST {
        let Some(same) = next(file) else {
            report(run, differ);
            return;
        };
        differ += usize::from(!same);
    }
    report(MOST, differ);
}

fn main(rt: HostRuntime) {
    if !input::goes_on(&rt, USAGE, b"") {
        return;
    }
    let Some(mut file) = input::open(&rt) else {
        return;
    };
    run_all(&mut file);
}

// Where the bytes and line faults of a stream lead, and how many operands a command then has.
ghost use Rattle.std.specs.Prelude.{◌≡◌};
ghost use Rattle.grammar.specs.Grammar.{factory_context};
ghost use Rattle.grammar.specs.Scanner.{scan};
ghost use Rattle.grammar.specs.Following.{scanner_after, followed, undropped, undisturbed, is_between, after_fault, after_bytes, operands_in};

use crate::{Context, Place, Scanner, rows, scanning};

// Where a stream stands: the scanner of its bytes, and whether the next one is dropped.
#[derive(Clone, Copy)]
pub struct Stream {
    pub scanner: Scanner,
    pub drop: bool,
}

// The stream at the factory start of a session.
pub fn start() -> Stream
    ensures { result ≡ undisturbed factory_context }
{
    undropped(Scanner {
        context: crate::cleared_context(),
        place: Place::Between,
    })
}

// Whether an item may begin at a place.
fn is_between(p: Place) -> bool
    ensures { result ≡ is_between p }
{
    matches!(p, Place::Between)
}

// Where a stream stands after a line fault.
pub fn after_fault(s: Stream) -> Stream
    ensures { result ≡ after_fault s }
{
    Stream {
        scanner: s.scanner,
        drop: is_between(s.scanner.place),
    }
}

// Where a scanner stands after a byte; one that is rejected leaves it where it is.
fn scanner_after(g: Scanner, b: u8) -> Scanner
    ensures { result ≡ scanner_after g (scan g b) }
{
    scanning::scan_byte(g, b).unwrap_or(g)
}

// Where a scanner stands after bytes.
fn follow(from: Scanner, bytes: &[u8]) -> Scanner
    ensures { result ≡ followed from bytes.now }
{
    let mut g = from;
    for b in bytes {
        g = scanner_after(g, *b);
    }
    g
}

// A stream of which no byte is to be dropped.
fn undropped(scanner: Scanner) -> Stream
    ensures { result ≡ undropped scanner }
{
    Stream {
        scanner,
        drop: false,
    }
}

// Where a stream stands after bytes, of which the first may be dropped.
pub fn after_bytes(s: Stream, bytes: &[u8]) -> Stream
    ensures { result ≡ after_bytes s bytes.now }
{
    match bytes {
        [] => s,
        [_, rest @ ..] if s.drop => undropped(follow(s.scanner, rest)),
        _ => undropped(follow(s.scanner, bytes)),
    }
}

// How many operands a byte has in a context, after 1D or between items.
pub fn operands(c: Context, b: u8, extended: bool) -> u8
    ensures { result ≡ operands_in c b extended }
{
    rows::operands_of(c, b, extended)
}

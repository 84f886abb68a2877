// Lists of bytes in a script.
ghost use Rattle.std.specs.Prelude.{◌≡◌, ◌+◌, ◌-◌, ◌≤◌, length, replicate};
ghost use Rattle.wire.specs.Buffer.{Written};
ghost use Rattle.text.specs.Lists.{with_count, repeated, begun, item_at, list_of, Reads};

use crate::words::{Word, word_at};
use crate::{Assembled, Expected, Wrong, numbers};

// An item of a list: so many of a byte, with the place after it.
#[derive(Clone, Copy)]
pub(crate) struct Run {
    byte: u8,
    count: usize,
    next: usize,
}

// The count of a byte, which the word has to be.
fn with_count(text: &[u8], byte: u8, w: Word) -> Result<Run, Wrong>
    ensures { result ≡ with_count text.now byte w }
{
    let count = numbers::count(w.bytes(text)).ok_or(Wrong {
        place: w.start,
        expected: Expected::Count,
    })?;
    Ok(Run {
        byte,
        count,
        next: w.end,
    })
}

// A byte that ends at a place, and the word behind it: `x` says that a count follows.
fn repeated(text: &[u8], byte: u8, end: usize, w: Word) -> Result<Run, Wrong>
    ensures { result ≡ repeated text.now byte end w }
{
    if check::same(w.bytes(text), b"x") {
        return with_count(text, byte, word_at(text, w.end));
    }
    Ok(Run {
        byte,
        count: 1,
        next: end,
    })
}

// An item by its first word; where there is no word, the list ends.
fn begun(text: &[u8], w: Word) -> Result<Option<Run>, Wrong>
    ensures { result ≡ begun text.now w }
{
    if w.is_none() {
        return Ok(None);
    }
    let byte = numbers::byte_of(w.bytes(text)).ok_or(Wrong {
        place: w.start,
        expected: Expected::Byte,
    })?;
    let run = repeated(text, byte, w.end, word_at(text, w.end))?;
    Ok(Some(run))
}

// The item at a place of the text.
fn item_at(text: &[u8], at: usize) -> Result<Option<Run>, Wrong>
    ensures { result ≡ item_at text.now at }
{
    begun(text, word_at(text, at))
}

// So many of a byte to a buffer, from a place on. The caller shows that they fit.
fn fill(body: &mut [u8], at: usize, byte: u8, count: usize) -> usize
    requires { at + count ≤ length body.old }
    ensures { Written body.old at (replicate count byte) body.new result }
{
    let end = at + count;
    body[at..end].fill(byte);
    end
}

// The list from a place of the text on, to a buffer from a place on. The caller shows that the buffer has that place.
// (The loop goes by places of the text, as the definition does: an item read says where the next begins.)
pub fn list(text: &[u8], at: usize, body: &mut [u8], from: usize) -> Assembled
    requires { from ≤ length body.old }
    ensures { Reads (list_of text.now (length body.old - from) at) body.old from body.new result }
{
    let mut p = at;
    let mut size = from;
    loop {
        let run = match item_at(text, p) {
            Ok(Some(run)) => run,
            Ok(None) => {
                return Assembled {
                    size,
                    outcome: Ok(()),
                };
            }
            Err(wrong) => {
                return Assembled {
                    size,
                    outcome: Err(wrong),
                };
            }
        };
        if body.len() - size < run.count {
            let wrong = Wrong {
                place: p,
                expected: Expected::Room,
            };
            return Assembled {
                size,
                outcome: Err(wrong),
            };
        }
        size = fill(body, size, run.byte, run.count);
        p = run.next;
    }
}

// Records of a list of bytes.
ghost use Rattle.std.specs.Prelude.{◌≡◌, ◌-◌, ◌≤◌, length};
ghost use Rattle.text.specs.Lists.{Reads};
ghost use Rattle.script.specs.Cuts.{no_room, cut_of};

use records::kinds::Kind;
use records::reading::{HEADER, MOST};
use records::writing::put_record;
use text::{Assembled, Expected, Wrong};

// There is no room for what the script has at a place.
fn full(size: usize, place: usize) -> Assembled
    ensures { result ≡ no_room size place }
{
    let wrong = Wrong {
        place,
        expected: Expected::Room,
    };
    Assembled {
        size,
        outcome: Err(wrong),
    }
}

// The records of a body, to a buffer from a place on, as far as they fit. The caller shows that the place is there.
pub(crate) fn put_records(
    out: &mut [u8],
    at: usize,
    kind: Kind,
    body: &[u8],
    place: usize,
) -> Assembled
    requires { at ≤ length out.old }
    ensures { Reads (cut_of kind body.now (length out.old - at) place) out.old at out.new result }
{
    let mut rest = body;
    let mut size = at;
    // no `chunks`: an empty body is a record too
    loop {
        let (piece, after) = rest.split_at(rest.len().min(MOST));
        if out.len() - size < HEADER + piece.len() {
            return full(size, place);
        }
        size = put_record(out, size, kind as u16, piece);
        if after.is_empty() {
            return Assembled {
                size,
                outcome: Ok(()),
            };
        }
        rest = after;
    }
}

// Where a place of a text stands.
ghost use Rattle.std.specs.Prelude.{◌≡◌};
ghost use Rattle.text.specs.Places.{position_of};

use crate::Position;

// The line and the column of a place, both from 1. A place past the text's end is taken for its end.
pub fn position(text: &[u8], place: usize) -> Position
    ensures { result ≡ position_of text.now place }
{
    let before = text.get(..place).unwrap_or(text);
    let mut line: usize = 1;
    let mut column: usize = 1;
    for b in before {
        if *b == b'\n' {
            line += 1;
            column = 1;
        } else {
            column += 1;
        }
    }
    Position { line, column }
}

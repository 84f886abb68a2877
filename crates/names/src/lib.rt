// The commands of the list 001 by name and code: 74 rows in 01's order. 01 leaves out the extended commands 00 and 04 to 07.
#![tactic(auto)]

ghost use Rattle.std.specs.Prelude.{◌≡◌};
ghost use Rattle.names.specs.Names.{name_at, code_at, is_extended, row_coded};

use crate::tables::TABLE;

mod tables;

// How many rows there are, and the width of a name, padded with blanks.
pub const ROWS: usize = 74;

pub const NAME_WIDTH: usize = 24;

// The rows of the extended commands.
const FIRST_EXTENDED: usize = 31;

const LAST_EXTENDED: usize = 41;

// A command's name, padded with blanks, and its code, for an extended one the byte after 1D. The name is an array: with references,
// which have addresses, the table is no closed value, and the proof that its columns are the list's didn't close.
type Row = ([u8; NAME_WIDTH], u8);

// The name of a row's command; all blanks past the table.
pub fn name(row: usize) -> [u8; NAME_WIDTH]
    ensures { result ≡ name_at row }
{
    if row < ROWS {
        TABLE[row].0
    } else {
        [b' '; NAME_WIDTH]
    }
}

// The byte of a row's command, for an extended one the byte after 1D; 0 past the table.
pub fn code(row: usize) -> u8
    ensures { result ≡ code_at row }
{
    if row < ROWS { TABLE[row].1 } else { 0 }
}

// Whether a row's command comes after 1D.
pub fn extended(row: usize) -> bool
    ensures { result ≡ is_extended row }
{
    FIRST_EXTENDED <= row && row <= LAST_EXTENDED
}

// The row of a code, common or extended.
pub fn find(code: u8, is_extended: bool) -> Option<usize>
    ensures { result ≡ row_coded code is_extended }
{
    for (row, r) in TABLE.iter().enumerate() {
        if r.1 == code && extended(row) == is_extended {
            return Some(row);
        }
    }
    None
}

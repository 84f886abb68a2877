// The text of a script: its words, what a word can say, its lists of bytes, and where a place of it stands.
#![tactic(auto)]

pub mod lists;
pub mod named;
mod numbers;
pub mod place;
pub mod words;

// What a script was expected to have where it is wrong.
#[derive(Clone, Copy)]
pub enum Expected {
    Statement,
    Byte,
    Count,
    Fault,
    LineEnd,
    Operands(u8),
    Room,
}

// What is wrong with a script: what was expected at a place.
#[derive(Clone, Copy)]
pub struct Wrong {
    pub place: usize,
    pub expected: Expected,
}

// How many bytes of a buffer hold what was read, also where reading stopped because something is wrong.
#[derive(Clone, Copy)]
pub struct Assembled {
    pub size: usize,
    pub outcome: Result<(), Wrong>,
}

// A line and a column, both from 1.
#[derive(Clone, Copy)]
pub struct Position {
    pub line: usize,
    pub column: usize,
}

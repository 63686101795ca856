// Search strings: pairs of a name and alternatives, read, decoded and kept in rows.
#![tactic(auto)]

mod decode;
mod kept;
mod pair;
mod pieces;
mod query;

pub use kept::KeptQuery;
pub use query::{accept_query, no_rows};

// A byte that a name or a value stands for, and where the text goes on.
#[derive(Clone, Copy)]
pub struct DecodedByte {
    pub byte: u8,
    pub next: usize,
}

// What stands at a position of a decoded value, and where the value goes on: a byte, a comma that cuts, a bar that splits.
// No Option: each of its three arms is a mark that was found.
#[derive(Clone, Copy)]
pub enum Mark {
    Byte(u8, usize),
    Cut(usize),
    Split(usize),
}

// An alternative that was written: its length, where a token is split, and where the next alternative begins, if one follows.
#[derive(Clone, Copy)]
pub struct Piece {
    pub len: usize,
    pub split: usize,
    pub next: Option<usize>,
}

// How many bytes the name and the value of a pair stand for.
#[derive(Clone, Copy)]
pub struct PairLengths {
    pub name: usize,
    pub value: usize,
}

// An alternative as it is kept: its pair's first byte, its name and its text in the buffer, where a token is split, and whether its pair ends with it.
#[derive(Clone, Copy)]
pub struct Row {
    pub at: usize,
    pub name: usize,
    pub until: usize,
    pub text: usize,
    pub end: usize,
    pub split: usize,
    // no Option: a row has all its parts, the last of its pair and the others
    pub last: bool,
}

// The alternatives so far: how many, and the first 32.
#[derive(Clone, Copy)]
pub struct Rows {
    pub count: usize,
    // fixed memory, for the most alternatives; those beyond are only counted
    pub rows: [Row; 32],
}

// The rows, and where their bytes end.
#[derive(Clone, Copy)]
pub struct Held {
    pub rows: Rows,
    pub used: usize,
}

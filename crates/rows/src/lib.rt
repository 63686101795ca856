// Rows: a filter that was read, as 32-bit cells to be read from left to right with one expression in hand. What each cell says, and
// whether cells are the rows of a filter; they are tested before they are trusted.
#![tactic(auto)]

mod cell;
mod fit;
mod shapes;
mod whole;

pub use cell::{bit, probe_of, row_of};
use syntax::Connective;
pub use whole::are_good;

// What rows are held against of a sheet, by a parameter's index: its kind, and its bundle, which is the bundle's index plus 1, or 0 at the top.
#[derive(Clone, Copy)]
pub struct Tables {
    pub kinds: [u8; 32],
    pub parents: [u8; 32],
}

// A probe is a test as a row has it: the index of its parameter, its operator by the number that a cell has, which may be none's, and the
// position of its value's first byte in the text.
#[derive(Clone, Copy)]
pub struct Probe {
    pub index: u8,
    pub operator: u8,
    pub position: usize,
}

// What a cell says: a test, brackets with the number of rows in them (which stand behind the row of the test after them), not, a connective
// with the number of rows of its second part, or nothing. Cells come from anybody: Unknown is an arm, so that each match says what it does
// with such a cell.
#[derive(Clone, Copy)]
pub enum Row {
    Test(Probe),
    Bracket(usize),
    Not,
    Connect(Connective, usize),
    Unknown,
}

// The number of an expression's tests, and how deep the brackets nest that it needs: as a filter, and as an item of one.
#[derive(Clone, Copy)]
pub struct Shape {
    pub tests: usize,
    pub chain: usize,
    pub item: usize,
}

// The shape of the first test of rows, with the brackets before it, and the row behind.
#[derive(Clone, Copy)]
pub struct Begun {
    pub shape: Shape,
    pub next: usize,
}

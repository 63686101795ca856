// Rows that state an expression, as few as a filter's or not.
ghost use Rattle.std.specs.Prelude.{◌≡◌, ℕ, List, ◌≤◌, ◌<◌, length, get_or};
ghost use Rattle.base.specs.Parts.{part};
ghost use Rattle.rows.specs.Cells.{row_of};
ghost use Rattle.row_judge.specs.Saying.{Whole};

use rows::{Row, row_of};
use std::marker::Model;

// Rows that state an expression. A clause sees the cells.
#[derive(Drop)]
pub struct StatedRows<'a> {
    pub cells: &'a [u32],
}

impl<'a> Model for StatedRows<'a> {
    ghost Value = { List ℕ };

    ghost view = { λ rows. rows.cells.now };

    ghost invariant = { λ rows. Whole rows.cells.now };
}

// Rows that state an expression, and are as few as a filter's can be: they can be opened and marked in memory of a fixed size. A clause sees
// the cells.
#[derive(Drop)]
pub struct WholeRows<'a> {
    pub cells: &'a [u32],
}

impl<'a> Model for WholeRows<'a> {
    ghost Value = { List ℕ };

    ghost view = { λ rows. rows.cells.now };

    ghost invariant = { λ rows. Whole rows.cells.now × (length rows.cells.now ≤ 320) };
}

impl<'a> WholeRows<'a> {
    // These rows, whatever their number.
    pub fn stated(&self) -> StatedRows<'a>
        ensures { result ≡ self.now }
    {
        StatedRows { cells: self.cells }
    }

    // How many they are.
    pub fn len(&self) -> usize
        ensures length { result ≡ length self.now }
        ensures whole { Whole self.now }
        ensures few { length self.now ≤ 320 }
    {
        self.cells.len()
    }

    // What the row at a place says.
    pub fn row(&self, at: usize) -> Row
        requires { at < length self.now }
        ensures { result ≡ row_of (get_or self.now at 0) }
    {
        let cells = self.cells;
        row_of(cells[at])
    }

    // The rows from a place up to another, where these state an expression too.
    pub fn part(&self, from: usize, to: usize) -> WholeRows<'a>
        requires order { from ≤ to }
        requires within { to ≤ length self.now }
        requires whole { Whole (part self.now from to) }
        ensures { result ≡ part self.now from to }
    {
        WholeRows {
            cells: &self.cells[from..to],
        }
    }
}

// The mark that rows come to with the marks of their tests.
ghost use Rattle.std.specs.Prelude.{◌≡◌, ◌+◌, ◌≤◌, length, get_or};
ghost use Rattle.row_judge.specs.Saying.{Whole};
ghost use Rattle.deciding.specs.Marks.{both, opposite, joined_marks};
ghost use Rattle.deciding.specs.Rows.{Starts, MarksFrom, MarksWhole};
ghost use Rattle.deciding.specs.declared.Mark.{Mark};

use crate::{Mark, Marked};
use row_judge::WholeRows;
use rows::{Row, row_of};
use syntax::Connective;

// The mark of two parts that are to hold both: a no decides, and else what is spared leaves it open.
fn both(first: Mark, second: Mark) -> Mark
    ensures { result ≡ both first second }
{
    match (first, second) {
        (Mark::No, _) | (_, Mark::No) => Mark::No,
        (Mark::Yes, other) => other,
        (Mark::Spared, _) => Mark::Spared,
    }
}

// The mark after not.
fn opposite(mark: Mark) -> Mark
    ensures { result ≡ opposite mark }
{
    match mark {
        Mark::Spared => Mark::Spared,
        Mark::Yes => Mark::No,
        Mark::No => Mark::Yes,
    }
}

// The mark of two parts that are joined by and or or.
fn join_marks(connective: Connective, first: Mark, second: Mark) -> Mark
    ensures { result ≡ joined_marks connective first second }
{
    match connective {
        Connective::And => both(first, second),
        Connective::Or => opposite(both(opposite(first), opposite(second))),
    }
}

// The mark of a test by its number; where there is none it is spared.
fn mark_at(marks: &[Mark], i: usize) -> Mark
    ensures { result ≡ get_or marks.now i Mark.Spared }
{
    marks.get(i).copied().unwrap_or(Mark::Spared)
}

// The row behind the first test of rows, or behind its brackets.
pub fn after_first(rows: &WholeRows<'_>) -> usize
    ensures starts { Starts rows.now result }
    ensures whole { Whole rows.now }
    ensures few { length rows.now ≤ 320 }
{
    match row_of(rows.cells[0]) {
        Row::Bracket(size) => size + 2,
        _ => 1,
    }
}

// The mark of what rows state, with these marks of its tests, of which the first has the number `first`. A test after brackets has one mark
// with them.
fn mark_from(rows: &WholeRows<'_>, marks: &[Mark], first: usize) -> Marked
    requires { first + length rows.now ≤ 320 }
    ensures { MarksFrom rows.now marks.now first result }
{
    let size = rows.len();
    let mut at = after_first(rows);
    let mut mark = mark_at(marks, first);
    let mut next = first + 1;
    // no for: the rows of a second part are passed over at once
    while at < size {
        match rows.row(at) {
            Row::Not => {
                mark = opposite(mark);
                at += 1;
            }
            Row::Connect(connective, count) => {
                let start = at + 1;
                let end = start + count;
                let second = mark_from(&rows.part(start, end), marks, next);
                mark = join_marks(connective, mark, second.mark);
                next = second.next;
                at = end;
            }
            _ => return Marked { mark, next },
        }
    }
    Marked { mark, next }
}

// The mark of what rows state, with these marks of its tests.
pub fn mark_of(rows: &WholeRows<'_>, marks: &[Mark]) -> Mark
    ensures { MarksWhole rows.now marks.now result }
{
    // they are few, by their type
    let _ = &rows.cells;
    let whole = mark_from(rows, marks, 0);
    whole.mark
}

// What the tests that rows state say of a card.
ghost use Rattle.std.specs.Prelude.{◌≡◌, true};
ghost use Rattle.card.specs.Card.{entries_of};
ghost use Rattle.row_judge.specs.Saying.{rows_say};
ghost use Rattle.deciding.specs.Marks.{mark};
ghost use Rattle.deciding.specs.Rows.{Tells, Room, FirstMarked, Gathers};

use crate::Mark;
use crate::marks::after_first;
use judge::Chosen;
use row_judge::{FittingCard, WholeRows, say_once};
use rows::Row;

// The mark of what rows say.
fn verdict(fitting: FittingCard<'_>, rows: &WholeRows<'_>) -> Mark
    ensures { result ≡ mark true (rows_say fitting.entry.kinds.now fitting.entry.filter.now (entries_of fitting.entry.card.now) rows.now) }
{
    let every: Chosen = None;
    if say_once(fitting, rows, every) {
        return Mark::Yes;
    }
    Mark::No
}

// Marks what the tests say that follow the one in hand, which has the number `first` and ends before the row `first_end`, and answers the
// number behind them.
#[cycle(gathering)]
fn gather_rest(
    fitting: FittingCard<'_>,
    rows: &WholeRows<'_>,
    marks: &mut [Mark; 32],
    first: usize,
    first_end: usize,
) -> usize
    requires { FirstMarked fitting.kinds.now fitting.filter.now fitting.card.now rows.now first first_end marks.old }
    ensures { Gathers fitting.entry.kinds.now fitting.entry.filter.now (entries_of fitting.entry.card.now) rows.now first result marks.old marks.new }
{
    let size = rows.len();
    let mut at = first_end;
    let mut next = first + 1;
    // no for: the rows of a second part are passed over at once
    while at < size {
        match rows.row(at) {
            Row::Not => {
                at += 1;
            }
            Row::Connect(_, count) => {
                let start = at + 1;
                let end = start + count;
                next = gather_from(fitting, &rows.part(start, end), marks, next);
                at = end;
            }
            _ => return next,
        }
    }
    next
}

// Marks what each test that the rows state says of a card that conforms, from the number `first` on, and answers the number behind them. A test
// after brackets is judged with the rows in them.
#[cycle(gathering)]
fn gather_from(
    fitting: FittingCard<'_>,
    rows: &WholeRows<'_>,
    marks: &mut [Mark; 32],
    first: usize,
) -> usize
    requires { Room rows.now first 32 }
    ensures { Gathers fitting.entry.kinds.now fitting.entry.filter.now (entries_of fitting.entry.card.now) rows.now first result marks.old marks.new }
{
    let end = after_first(rows);
    marks[first] = verdict(fitting, &rows.part(0, end));
    gather_rest(fitting, rows, marks, first, end)
}

// Marks what each test that the rows state says of a card that conforms, and answers how many tests there are.
pub fn gather_verdicts(
    fitting: FittingCard<'_>,
    rows: &WholeRows<'_>,
    marks: &mut [Mark; 32],
) -> usize
    requires { Room rows.now 0 32 }
    ensures { Tells fitting.entry.kinds.now fitting.entry.filter.now (entries_of fitting.entry.card.now) rows.now result marks.new }
{
    gather_from(fitting, rows, marks, 0)
}

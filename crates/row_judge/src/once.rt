// Rows that are judged on one card alone.
ghost use Rattle.std.specs.Prelude.{◌≡◌, ◌≤◌, true, length};
ghost use Rattle.card.specs.Card.{entries_of};
ghost use Rattle.judge.specs.Sets.{chosen_of, conforms_to};
ghost use Rattle.row_judge.specs.Saying.{rows_say};

use crate::asks::lend_for;
use crate::says::rows_say;
use crate::{FittingCard, OpenedRows, WholeRows};
use card::Card;
use card_reader::{ReadCard, read_entries};
use judge::Chosen;
use row_opener::open_rows;

// What rows that were opened say of the entries that count of a card that conforms to a sheet with these kinds.
fn say_opened(opened: &OpenedRows<'_>, card: &Card<'_>, chosen: Chosen) -> bool
    requires { conforms_to opened.now.kinds.now (entries_of card.now) ≡ true }
    ensures { result ≡ rows_say opened.now.kinds.now opened.now.filter.now (chosen_of chosen (entries_of card.now)) opened.now.rows.now }
{
    let mut kept = lend_for(opened);
    read_entries(opened.kinds, card, &mut kept);
    let read = ReadCard { card, kept: &kept };
    rows_say(opened, read, chosen)
}

// What rows that are opened for one card say of it, into N values; N is bounded, since the list is memory of a fixed size.
fn say_in<const N: usize>(fitting: FittingCard<'_>, rows: &WholeRows<'_>, chosen: Chosen) -> bool
    requires room { length rows.now ≤ N }
    requires fixed { N ≤ 320 }
    ensures { result ≡ rows_say fitting.entry.kinds.now fitting.entry.filter.now (chosen_of chosen (entries_of fitting.entry.card.now)) rows.now }
{
    let mut values = [None; N];
    open_rows(fitting.kinds, fitting.filter, rows.cells, &mut values);
    let opened = OpenedRows {
        kinds: fitting.kinds,
        filter: fitting.filter,
        rows: &rows.stated(),
        values: &values,
    };
    say_opened(&opened, fitting.card, chosen)
}

// The same, into 32 values or 320: those of a few rows take less time to clear.
pub fn say_once(fitting: FittingCard<'_>, rows: &WholeRows<'_>, chosen: Chosen) -> bool
    ensures { result ≡ rows_say fitting.entry.kinds.now fitting.entry.filter.now (chosen_of chosen (entries_of fitting.entry.card.now)) rows.now }
{
    if rows.cells.len() <= 32 {
        return say_in::<32>(fitting, rows, chosen);
    }
    say_in::<320>(fitting, rows, chosen)
}

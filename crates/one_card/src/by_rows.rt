// The first engine: rows that are whole say what a filter says, without its text being read again, of a card that is read once.
ghost use Rattle.std.specs.Prelude.{◌≡◌, List, ℕ, ◌≤◌, length};
ghost use Rattle.sheet.specs.Sheet.{Parameter};
ghost use Rattle.sheet.specs.Find.{kinds_of};
ghost use Rattle.row_judge.specs.Asking.{LentFor};
ghost use Rattle.answer.specs.Passing.{card_verdict};
ghost use Rattle.one_card.specs.OneCard.{verdict_step};
ghost use Rattle.one_card.specs.OneCard.{cells_question, TakesCard};

use crate::read_card;
use card::Card;
use card_reader::{Kept, ReadCard, read_entries};
use judge::Chosen;
use refusal::Reason;
use row_judge::{OpenedRows, WholeRows, lend_for, rows_say};
use row_opener::open_rows;
use syntax::FilterText;

// Reads a card as accept_card does, and keeps what its entries read to; `kinds` are those of the sheet. Its twin but for one call: one function
// over a closure, with the clauses that say what the closure keeps, is longer than both.
fn take_card<'a>(kinds: &[u8; 32], bytes: &'a [u8], kept: &mut Kept) -> Result<Card<'a>, Reason>
    ensures { TakesCard kinds.now bytes.now kept.old kept.new result }
{
    let card = read_card(bytes)?;
    if !read_entries(kinds, &card, kept) {
        return Err(Reason::CardMisfit);
    }
    Ok(card)
}

// The verdict of rows that were opened on a card, or why the card is refused; the kinds are those of the sheet, and what is kept is lent for the rows.
pub fn judge_by_rows(opened: &OpenedRows<'_>, card: &[u8], kept: &mut Kept) -> Result<bool, Reason>
    requires { LentFor opened.now.kinds.now opened.now.rows.now kept.old }
    ensures i_value { (ps : List Parameter) → opened.now.kinds.now ≡ kinds_of ps → (i : ℕ)
        → verdict_step result i ≡ card_verdict (cells_question ps opened.now.filter.now opened.now.rows.now) i card.now }
    ensures lent_for_2 { LentFor opened.now.kinds.now opened.now.rows.now kept.new }
{
    let card = take_card(opened.kinds, card, kept)?;
    let every: Chosen = None;
    let kept: &Kept = kept;
    let read = ReadCard { card: &card, kept };
    Ok(rows_say(opened, read, every))
}

// The verdict of rows that are opened for one card alone, into N values, which are memory of a fixed size: what is kept is lent for it.
fn judge_in<const N: usize>(
    kinds: &[u8; 32],
    filter: &FilterText<'_>,
    rows: &WholeRows<'_>,
    card: &[u8],
) -> Result<bool, Reason>
    requires room { length rows.now ≤ N }
    requires fixed { N ≤ 320 }
    ensures { (ps : List Parameter) → kinds.now ≡ kinds_of ps → (i : ℕ) → verdict_step result i ≡ card_verdict (cells_question ps filter.now rows.now) i card.now }
{
    let mut values = [None; N];
    open_rows(kinds, filter, rows.cells, &mut values);
    let opened = OpenedRows {
        kinds,
        filter,
        rows: &rows.stated(),
        values: &values,
    };
    let mut kept = lend_for(&opened);
    judge_by_rows(&opened, card, &mut kept)
}

// The same, into 32 values or 320: those of a few rows take less time to clear. (`say_once` and `select_rows` choose so too, each for its own answer.)
pub fn judge_once(
    kinds: &[u8; 32],
    filter: &FilterText<'_>,
    rows: &WholeRows<'_>,
    card: &[u8],
) -> Result<bool, Reason>
    ensures { (ps : List Parameter) → kinds.now ≡ kinds_of ps → (i : ℕ) → verdict_step result i ≡ card_verdict (cells_question ps filter.now rows.now) i card.now }
{
    if rows.cells.len() <= 32 {
        return judge_in::<32>(kinds, filter, rows, card);
    }
    judge_in::<320>(kinds, filter, rows, card)
}

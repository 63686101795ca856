// What is asked of each card of a run: by the rows of a filter, by a filter's text, or by the rows of a search string.
ghost use Rattle.std.specs.Prelude.{◌≡◌, ℕ, ◌≤◌, length};
ghost use Rattle.sheet.specs.Sheet.{parameters_of};
ghost use Rattle.syntax.specs.Reader.{read};
ghost use Rattle.query.specs.Rows.{RowsWithin};
ghost use Rattle.sheet.specs.Find.{kinds_of};
ghost use Rattle.answer.specs.Operations.{Question};
ghost use Rattle.answer.specs.Passing.{Passing, text_question, card_verdict};
ghost use Rattle.one_card.specs.OneCard.{verdict_step, cells_question};
ghost use Rattle.searching.specs.SearchPassing.{rows_question};
ghost use Rattle.selecting.specs.Asking.{RowsReady, TextReady, SearchReady};

use card_reader::Kept;
use one_card::{judge_by_rows, judge_by_text};
use query::{KeptQuery, Rows};
use refusal::Reason;
use row_judge::{OpenedRows, lend_for};
use searching::judge_by_search;
use sheet::Sheet;
use syntax::FilterText;

// A question to the cards of a run.
pub trait Asking {
    // What must hold of it so that a card can be judged, and what it asks.
    ghost ready: { Self → Type 0 };

    ghost question: { Self → Question };

    // The verdict on a card, or why it is refused; the next card is asked the same.
    fn verdict(&mut self, card: &[u8]) -> Result<bool, Reason>
        requires { ready self.old }
        ensures ready { ready self.new }
        ensures says { (i : ℕ) → verdict_step result i ≡ card_verdict (question self.old) i card.now }
        ensures same { question self.new ≡ question self.old };
}

// By the rows of a filter: they were opened once for all cards, and what is kept is lent for them.
#[derive(Drop)]
pub struct ByRows<'a> {
    sheet: &'a Sheet<'a>,
    opened: OpenedRows<'a>,
    kept: Kept,
}

impl<'a> ByRows<'a> {
    pub fn new(sheet: &'a Sheet<'a>, opened: OpenedRows<'a>) -> Self
        requires { opened.kinds.now ≡ kinds_of (parameters_of sheet.now) }
        ensures ready { RowsReady sheet.now result.opened.kinds.now result.opened.rows.now result.kept }
        ensures parts { (result.sheet.now ≡ sheet.now) × (result.opened ≡ opened.entry) }
    {
        let kept = lend_for(&opened);
        ByRows {
            sheet,
            opened,
            kept,
        }
    }
}

impl<'a> Asking for ByRows<'a> {
    ghost ready = { λ asked. RowsReady asked.sheet.now asked.opened.kinds.now asked.opened.rows.now asked.kept };

    ghost question = { λ asked. cells_question (parameters_of asked.sheet.now) asked.opened.filter.now asked.opened.rows.now };

    fn verdict(&mut self, card: &[u8]) -> Result<bool, Reason> {
        judge_by_rows(&self.opened, card, &mut self.kept)
    }
}

// By a filter's text, which is read again for each card.
#[derive(Drop)]
pub struct ByText<'a> {
    sheet: &'a Sheet<'a>,
    kinds: [u8; 32],
    filter: &'a FilterText<'a>,
}

impl<'a> ByText<'a> {
    pub fn new(sheet: &'a Sheet<'a>, filter: &'a FilterText<'a>) -> Self
        requires { Passing sheet.now filter.now }
        ensures ready { TextReady sheet.now result.kinds filter.now }
        ensures parts { (result.sheet.now ≡ sheet.now) × (result.filter.now ≡ filter.now) }
    {
        let kinds = sheet.kinds();
        ByText {
            sheet,
            kinds,
            filter,
        }
    }
}

impl<'a> Asking for ByText<'a> {
    ghost ready = { λ asked. TextReady asked.sheet.now asked.kinds asked.filter.now };

    ghost question = { λ asked. text_question (parameters_of asked.sheet.now) (read asked.filter.now) };

    fn verdict(&mut self, card: &[u8]) -> Result<bool, Reason> {
        judge_by_text(self.sheet, &self.kinds, self.filter, card)
    }
}

// By the rows of a search string over its decoded bytes.
#[derive(Drop)]
pub struct BySearch<'a> {
    sheet: &'a Sheet<'a>,
    kinds: [u8; 32],
    bytes: &'a [u8],
    rows: Rows,
}

impl<'a> BySearch<'a> {
    pub fn new(sheet: &'a Sheet<'a>, bytes: &'a [u8], rows: Rows) -> Self
        requires rows_within { RowsWithin (length bytes.now) rows }
        ensures ready { SearchReady sheet.now result.kinds bytes.now rows }
        ensures parts { (result.sheet.now ≡ sheet.now) × (result.bytes.now ≡ bytes.now) × (result.rows ≡ rows) }
    {
        let kinds = sheet.kinds();
        BySearch {
            sheet,
            kinds,
            bytes,
            rows,
        }
    }
}

impl<'a> Asking for BySearch<'a> {
    ghost ready = { λ asked. SearchReady asked.sheet.now asked.kinds asked.bytes.now asked.rows };

    ghost question = { λ asked. rows_question (parameters_of asked.sheet.now) asked.bytes.now asked.rows };

    fn verdict(&mut self, card: &[u8]) -> Result<bool, Reason> {
        let asked = KeptQuery {
            bytes: self.bytes,
            rows: &self.rows,
        };
        judge_by_search(self.sheet, &self.kinds, asked, card)
    }
}

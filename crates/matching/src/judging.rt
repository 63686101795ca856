// Judge: a card under a sheet and rows that are good for a filter's text.
ghost use Rattle.std.specs.Prelude.{◌≡◌};
ghost use Rattle.sheet.specs.Sheet.{parameters_of};
ghost use Rattle.refusal.specs.Answers.{matched_answer};
ghost use Rattle.answer.specs.Preparing.{rows_answer, judge_answer};

use answer::{accept_sheet, accept_text};
use one_card::{answered, judge_once};
use refusal::{Reason, Refusal, refuse};
use row_judge::WholeRows;
use rows::{Tables, are_good};
use sheet::Sheet;

// The verdict of rows on a card, under a well-formed sheet.
fn judge_rows(sheet: &Sheet<'_>, filter: &[u8], rows: &[u32], card: &[u8]) -> Result<bool, Refusal>
    ensures { matched_answer result ≡ rows_answer (parameters_of sheet.now) filter.now rows.now card.now }
{
    let text = accept_text(filter)?;
    let tables = Tables {
        kinds: sheet.kinds(),
        parents: sheet.parents(),
    };
    if !are_good(&tables, &text, rows) {
        return refuse(Reason::BadRows, 0);
    }
    let rows = WholeRows { cells: rows };
    answered(judge_once(&tables.kinds, &text, &rows, card))
}

// Whether a card matches what rows state on a sheet and a filter's text, or why there is no answer.
pub fn judge(sheet: &[u8], filter: &[u8], rows: &[u32], card: &[u8]) -> Result<bool, Refusal>
    ensures { matched_answer result ≡ judge_answer sheet.now filter.now rows.now card.now }
{
    let sheet = accept_sheet(sheet)?;
    judge_rows(&sheet, filter, rows, card)
}

// Match, which is prepare and judge after each other; judge; and match by the text, the second engine.
#![tactic(auto)]

mod judging;

ghost use Rattle.std.specs.Prelude.{◌≡◌};
ghost use Rattle.answer.specs.Operations.{match_answer};
ghost use Rattle.matching.specs.HandedBack.{handed_back};
ghost use Rattle.refusal.specs.Answers.{matched_answer};

use checking::check;
pub use judging::judge;
use one_card::{answered, judge_by_text};
use preparing::prepare;
use refusal::{Reason, Refusal};
use sheet::Sheet;
use syntax::FilterText;

// Prepare's refusal as match's answer. Cells are not handed back: they would be refused as rows that are not good, never answered.
#[tactic(auto, unfolding(refusal::specs::Answers::matched_answer, refusal::specs::Answers::refusal_answer, crate::specs::HandedBack::handed_back))]
fn hand_back(prepared: Result<usize, Refusal>) -> Result<bool, Refusal>
    ensures { matched_answer result ≡ handed_back prepared }
{
    prepared.and(Err(Refusal {
        reason: Reason::BadRows,
        place: 0,
    }))
}

// Whether a card matches a filter on a sheet, or why there is no answer, and where.
pub fn match_card(sheet: &[u8], filter: &[u8], card: &[u8]) -> Result<bool, Refusal>
    ensures { matched_answer result ≡ match_answer sheet.now filter.now card.now }
{
    // fixed memory, for the rows of the longest filter
    let mut cells = [0u32; 1024];
    let prepared = prepare(sheet, filter, &mut cells);
    let Ok(filled) = prepared else {
        return hand_back(prepared);
    };
    judge(sheet, filter, &cells[0..filled], card)
}

// The same by the filter's text, without rows.
pub fn match_by_text(sheet: &[u8], filter: &[u8], card: &[u8]) -> Result<bool, Refusal>
    ensures { matched_answer result ≡ match_answer sheet.now filter.now card.now }
{
    check(sheet, filter)?;
    // check has passed both, so that neither is read again
    let sheet = Sheet { bytes: sheet };
    let text = FilterText { bytes: filter };
    let kinds = sheet.kinds();
    answered(judge_by_text(&sheet, &kinds, &text, card))
}

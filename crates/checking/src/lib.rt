// Check: a sheet and a filter are read, and the first refusal in the order of the table decides.
#![tactic(auto)]

ghost use Rattle.std.specs.Prelude.{◌≡◌, ◌≤◌, ◌&&◌, cond, eqb, leb, length, Ok, Err};
ghost use Rattle.sheet.specs.Sheet.{parameters_of, read_sheet};
ghost use Rattle.syntax.specs.Grammar.{deepest, most_tests};
ghost use Rattle.syntax.specs.Scan.{skip_at};
ghost use Rattle.place.specs.Machine.{failure};
ghost use Rattle.refusal.specs.Answers.{counted_answer};
ghost use Rattle.answer.specs.Passing.{summary_answer};
ghost use Rattle.answer.specs.Operations.{filter_answer, check_answer};

use answer::{accept_sheet, accept_text};
use filter::{Summary, check_filter, top};
use place::find_failure;
use refusal::Refusal;
use sheet::Sheet;
use syntax::FilterText;

// Whether a filter that ends at a position is the whole text but for spaces, and has few enough tests; or why the text is no filter.
pub fn read_whole(text: &FilterText<'_>, end: usize, tests: usize) -> Result<(), Refusal>
    requires { end ≤ length text.now }
    ensures { result ≡ cond (eqb (skip_at text.now end) (length text.now) && leb tests most_tests) (Ok tt) (Err (failure deepest most_tests text.now)) }
{
    let behind = text.skip(end);
    if behind == text.len() && tests <= 32 {
        return Ok(());
    }
    Err(find_failure(text.bytes))
}

// The answer for a text that is a filter: the first refusal among its tests, or their number.
#[tactic(auto, unfolding(answer::specs::Passing::summary_answer, refusal::specs::Answers::counted_answer, refusal::specs::Answers::refusal_answer))]
pub fn outcome(summary: Summary) -> Result<usize, Refusal>
    ensures { counted_answer result ≡ summary_answer summary }
{
    summary.first.and(Ok(summary.tests))
}

// The filter on a well-formed sheet.
fn check_text(sheet: &Sheet<'_>, filter: &[u8]) -> Result<usize, Refusal>
    ensures { counted_answer result ≡ filter_answer (parameters_of sheet.now) filter.now }
{
    let text = accept_text(filter)?;
    let Some(read) = check_filter(sheet, &text, top(filter)) else {
        return Err(find_failure(filter));
    };
    read_whole(&text, read.end, read.summary.tests)?;
    outcome(read.summary)
}

// How many tests a filter has, where every test has a meaning on every card that fits the sheet; or why not, and where.
pub fn check(sheet: &[u8], filter: &[u8]) -> Result<usize, Refusal>
    ensures { counted_answer result ≡ check_answer sheet.now filter.now }
{
    let sheet = accept_sheet(sheet)?;
    check_text(&sheet, filter)
}

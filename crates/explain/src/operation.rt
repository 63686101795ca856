// Explain, with all that is promised of it. A slice holds bytes, so that nothing is asked of the caller.
ghost use Rattle.explain.specs.Operations.{Marks, ExplainsInto, Judged};

use card::Card;
use deciding::{Mark, gather_verdicts, spare};
use refusal::{Reason, Refusal};
use row_judge::{FittingCard, WholeRows};
use sheet::Sheet;
use syntax::FilterText;

// Marks the tests that decide, for rows that state the filter and a card that conforms, of which the filter says `yes`. Its six parameters are
// those of explain, and what prepare and judge have answered.
fn mark(
    sheet: &[u8],
    filter: &[u8],
    rows: &[u32],
    card: &[u8],
    yes: bool,
    cells: &mut [u8],
) -> Result<bool, Refusal>
    requires { Judged sheet.now filter.now rows.now card.now yes }
    ensures { Marks sheet.now filter.now card.now cells.old result cells.new }
{
    let kinds = Sheet { bytes: sheet }.kinds();
    let filter = FilterText { bytes: filter };
    let rows = WholeRows { cells: rows };
    let card = Card { bytes: card };
    let fitting = FittingCard {
        kinds: &kinds,
        filter: &filter,
        card: &card,
    };
    // a refusal writes nothing, so the marks wait here until the list is known to be long enough
    let mut marks = [Mark::Spared; 32];
    let tests = gather_verdicts(fitting, &rows, &mut marks);
    if tests > cells.len() {
        return Err(Refusal {
            reason: Reason::ShortMarks,
            place: tests,
        });
    }
    spare(&rows, tests, &mut marks);
    // by index, since of a zip of the two lists a proof knows no element that it wrote
    for i in 0..tests {
        cells[i] = u8::from(marks[i]);
    }
    Ok(yes)
}

// Whether a card matches a filter, and in the list a cell for each test: 0 spared, 1 decides by its yes, 2 decides by its no. Later cells
// stay, and on a refusal all of them.
pub fn explain(sheet: &[u8], filter: &[u8], card: &[u8], cells: &mut [u8]) -> Result<bool, Refusal>
    ensures { ExplainsInto sheet.now filter.now card.now cells.old result cells.new }
{
    // fixed memory, for the rows of the longest filter
    let mut rows = [0u32; 1024];
    let filled = sirophan::prepare(sheet, filter, &mut rows)?;
    let yes = sirophan::judge(sheet, filter, &rows[0..filled], card)?;
    mark(sheet, filter, &rows[0..filled], card, yes, cells)
}

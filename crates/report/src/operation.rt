// The report, with all that is promised of it. A slice holds bytes, so that nothing is asked of the caller.
ghost use Rattle.report.specs.Operations.{Reports};

use crate::plan::plan_of;
use crate::tallies::raise_all;
use crate::{Tally, Verdicts};
use refusal::Refusal;

// Counts the cards of a run that say yes and those that say no, and writes a row for each parameter, in sheet order; later rows stay,
// and on a refusal all of them.
pub fn report(
    sheet: &[u8],
    filter: &[u8],
    cards: &[u8],
    rows: &mut [Tally],
) -> Result<Verdicts, Refusal>
    ensures { Reports sheet.now filter.now cards.now rows.old result rows.new }
{
    let plan = plan_of(sheet, filter, cards, rows.len());
    raise_all(rows, cards, plan.rows, plan.steps);
    plan.answer
}

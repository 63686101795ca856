// What a report will do, decided before the first row is written.
ghost use Rattle.std.specs.Prelude.{◌≡◌, Err};
ghost use Rattle.report.specs.Operations.{Plans};

use crate::Verdicts;
use refusal::{Reason, Refusal};
use sheet::Sheet;

// How many rows there are, how many steps raise them (none on a refusal), and what the report answers.
// No Result of rows and steps: that a refusal takes no step is a promise that a wrong program breaks (`refusal_takes_a_step`).
#[derive(Clone, Copy)]
pub struct Plan {
    pub rows: usize,
    pub steps: usize,
    pub answer: Result<Verdicts, Refusal>,
}

// A refusal writes no row.
fn refuse(refusal: Refusal) -> Plan
    ensures { result ≡ record { rows = 0; steps = 0; answer = Err refusal } }
{
    Plan {
        rows: 0,
        steps: 0,
        answer: Err(refusal),
    }
}

// The plan for a run of cards under a sheet and a filter, into `room` rows. The cards that say yes are those that select counts: its
// list has a cell for each card of the longest run, so that it is never too short.
pub fn plan_of(sheet: &[u8], filter: &[u8], cards: &[u8], room: usize) -> Plan
    ensures { Plans sheet.now filter.now cards.now room result }
{
    let mut list = [0u32; 128];
    let selected = sirophan::select(sheet, filter, cards, &mut list);
    // no question mark: a refusal is a plan too
    match selected {
        Ok(yes) => {
            let n = usize::from(Sheet { bytes: sheet }.parameter_count());
            if n > room {
                return refuse(Refusal {
                    reason: Reason::ShortRows,
                    place: n,
                });
            }
            let total = cards.len() / 512;
            Plan {
                rows: n,
                steps: n * (total + 1),
                answer: Ok(Verdicts {
                    yes,
                    no: total - yes,
                }),
            }
        }
        Err(refusal) => refuse(refusal),
    }
}

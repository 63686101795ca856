// The parameters that rows ask about.
ghost use Rattle.card_reader.specs.Lists.{Lent};
ghost use Rattle.row_judge.specs.Asking.{KeepsTests, LentFor};

use crate::OpenedRows;
use card_reader::{Kept, keep, lend};
use rows::{Row, row_of};

// Has the entries of every parameter that the rows ask about kept, from the next card on.
fn keep_tests(rows: &[u32], kept: &mut Kept)
    ensures { KeepsTests rows.now kept.old kept.new }
{
    for &cell in rows {
        if let Row::Test(probe) = row_of(cell) {
            keep(kept, probe.index);
        }
    }
}

// What is kept in a run by these rows: the entries of every parameter that they ask about.
pub fn lend_for(opened: &OpenedRows<'_>) -> Kept
    ensures { LentFor opened.now.kinds.now opened.now.rows.now result }
{
    let rows = opened.rows;
    let mut kept = lend(opened.kinds);
    keep_tests(rows.cells, &mut kept);
    kept
}

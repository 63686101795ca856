// Sparing: from the last test to the first, each whose loss lets the answer still stand.
ghost use Rattle.std.specs.Prelude.{◌≡◌, cond, ◌≤◌};
ghost use Rattle.deciding.specs.Marks.{is_decided};
ghost use Rattle.deciding.specs.Rows.{Spares};
ghost use Rattle.deciding.specs.declared.Mark.{Mark};

use crate::Mark;
use crate::marks::mark_of;
use row_judge::WholeRows;

// What remains of a test's mark, where the whole has its mark without it: nothing, where that is a yes or a no.
fn remains(whole: Mark, mark: Mark) -> Mark
    ensures { result ≡ cond (is_decided whole) Mark.Spared mark }
{
    match whole {
        Mark::Yes | Mark::No => Mark::Spared,
        Mark::Spared => mark,
    }
}

// Spares what can be spared of the marks of the tests that rows state.
pub fn spare(rows: &WholeRows<'_>, tests: usize, marks: &mut [Mark; 32])
    requires { tests ≤ 32 }
    ensures { Spares rows.now tests marks.old marks.new }
{
    for i in (0..tests).rev() {
        let mark = marks[i];
        marks[i] = Mark::Spared;
        let whole = mark_of(rows, marks);
        marks[i] = remains(whole, mark);
    }
}

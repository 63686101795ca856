// Whether rows are good: one whole expression within both limits, with tests that fit where they stand.
ghost use Rattle.std.specs.Prelude.{◌≡◌, ◌≤◌, length};
ghost use Rattle.rows.specs.Shapes.{good};

use crate::Tables;
use crate::shapes::shape_of;
use syntax::FilterText;

// The most rows that an expression within both limits has.
const MOST_ROWS: usize = 320;

// The most calls within calls that it takes to read one: two for each level, a second part and the brackets in it, and two more.
const MOST_CALLS: usize = 18;

// Whether rows are good for a filter's text, on a sheet with these tables.
pub fn are_good(tables: &Tables, filter: &FilterText<'_>, rows: &[u32]) -> bool
    ensures { result ≡ good tables.now.kinds tables.now.parents filter.now rows.now }
{
    if rows.len() > MOST_ROWS {
        return false;
    }
    let Some(shape) = shape_of(tables, filter, rows, 0, MOST_CALLS) else {
        return false;
    };
    shape.tests <= 32 && shape.chain <= 8
}

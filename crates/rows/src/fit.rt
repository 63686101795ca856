// Tests of rows: whether each names a parameter with its operator, and a value that is one and readable.
ghost use Rattle.std.specs.Prelude.{◌≡◌, ◌≤◌, ◌<◌, ◌&&◌, eqb, length, get_or};
ghost use Rattle.syntax.specs.Placed.{PlacedValue};
ghost use Rattle.kind.specs.Readable.{value_readable};
ghost use Rattle.rows.specs.Cells.{row_of};
ghost use Rattle.rows.specs.Shapes.{kind_fits, value_in, probe_fits, member_by};

use crate::cell::row_of;
use crate::{Probe, Row, Tables};
use base::kind::Kind;
use base::operator::Operator;
use judge::has_meaning;
use syntax::{FilterText, RawValue};

// Whether a parameter of this kind is there, is no bundle, and has the operator.
fn kind_fits(operator: u8, kind: u8) -> bool
    ensures { result ≡ kind_fits operator kind }
{
    if kind == 0 {
        return false;
    }
    if kind == Kind::Bundle as u8 {
        return false;
    }
    if operator >= Operator::COUNT {
        return false;
    }
    has_meaning(operator, kind)
}

// Whether a value of the filter is readable for an operator and a kind.
fn value_fits(operator: u8, kind: u8, filter: &FilterText<'_>, value: RawValue) -> bool
    requires placed_value { PlacedValue filter.now value }
    ensures { result ≡ value_readable operator kind (value_in filter.now value) }
{
    filter.of_value(value, |bytes| kind::value_readable(operator, kind, bytes))
}

// That a probe's index is below 32 is a clause, here, in `row_opener` and in `row_judge`: definitions make probes of any index.

// Whether a test names a parameter with its operator, and its value is one by the grammar and readable.
fn probe_fits(tables: &Tables, filter: &FilterText<'_>, probe: Probe) -> bool
    requires index_bound { probe.index < 32 }
    ensures { result ≡ probe_fits tables.now.kinds filter.now probe }
{
    let index = usize::from(probe.index);
    let kind = tables.kinds[index];
    if !kind_fits(probe.operator, kind) {
        return false;
    }
    let Some(value) = filter.read_value(probe.position) else {
        return false;
    };
    value_fits(probe.operator, kind, filter, value)
}

// Whether a test fits where it stands, 0 at the top and a bundle's index plus 1 in its brackets.
pub fn stands(tables: &Tables, filter: &FilterText<'_>, probe: Probe, scope: u8) -> bool
    requires index_bound { probe.index < 32 }
    ensures { result ≡ (probe_fits tables.now.kinds filter.now probe && eqb (get_or tables.now.parents probe.index 0) scope) }
{
    let index = usize::from(probe.index);
    if probe_fits(tables, filter, probe) {
        return tables.parents[index] == scope;
    }
    false
}

// The index plus 1 of the bundle that a test's parameter is a member of, where the cell says a test and it fits; else 0.
pub fn member_of(tables: &Tables, filter: &FilterText<'_>, cell: u32) -> u8
    ensures { result ≡ member_by tables.now.kinds tables.now.parents filter.now (row_of cell) }
{
    match row_of(cell) {
        Row::Test(probe) => {
            let index = usize::from(probe.index);
            if probe_fits(tables, filter, probe) {
                return tables.parents[index];
            }
            0
        }
        _ => 0,
    }
}

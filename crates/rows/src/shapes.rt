// The shape of what rows state. They are read from left to right with the shape of one expression in hand; a second part, and what is in
// brackets, is read by itself. Calls within calls are counted, and no more are made than brackets within the limit ask for.
ghost use Rattle.std.specs.Prelude.{◌≡◌, ◌≤◌, suc, length};
ghost use Rattle.rows.specs.Cells.{stated_in};
ghost use Rattle.rows.specs.Nesting.{larger, deeper_shape, joined_shape};
ghost use Rattle.rows.specs.Shapes.{fits_in, shape_by, InHand, Began, BeganInBrackets};

use crate::cell::row_of;
use crate::fit::{member_of, stands};
use crate::{Begun, Row, Shape, Tables};
use syntax::FilterText;

// The larger of two numbers.
fn larger(a: usize, b: usize) -> usize
    ensures { result ≡ larger a b }
{
    if a < b {
        return b;
    }
    a
}

// Of what stands in brackets or before not, with so many tests more.
fn deeper(shape: Shape, tests: usize) -> Shape
    requires tests_bound { shape.tests ≤ 320 }
    requires chain_bound { shape.chain ≤ 320 }
    requires tests_bound_2 { tests ≤ 1 }
    ensures { result ≡ deeper_shape shape tests }
{
    Shape {
        tests: shape.tests + tests,
        chain: shape.chain + 1,
        item: shape.chain + 1,
    }
}

// Of two parts that are joined.
fn joined(first: Shape, second: Shape) -> Shape
    requires tests_bound { first.tests ≤ 320 }
    requires chain_bound { first.chain ≤ 320 }
    requires tests_bound_2 { second.tests ≤ 320 }
    requires item_bound { second.item ≤ 320 }
    ensures { result ≡ joined_shape first second }
{
    let chain = larger(first.chain, second.item);
    Shape {
        tests: first.tests + second.tests,
        chain,
        item: chain + 1,
    }
}

// That rows are at most 320 is a clause, so that what is counted along them fits: a type would be made anew, and its fact proved, for each part.

// The tables and the text are handed on one by one: with two, a struct is no shorter than its parts, and each part of rows is held against both.

// Of the first test of rows, after brackets with so many rows in them.
#[cycle(shapes)]
fn shape_in_brackets(
    tables: &Tables,
    filter: &FilterText<'_>,
    rows: &[u32],
    size: usize,
    calls: usize,
) -> Option<Begun>
    requires rows_len_bound { length rows.now ≤ 320 }
    ensures { BeganInBrackets tables.now.kinds tables.now.parents filter.now calls rows.now size result }
{
    if rows.len() < 2 {
        return None;
    }
    if size > rows.len() - 2 {
        return None;
    }
    let bundle = member_of(tables, filter, rows[1]);
    if bundle == 0 {
        return None;
    }
    let end = size + 2;
    let inner = shape_of(tables, filter, &rows[2..end], bundle, calls)?;
    Some(Begun {
        shape: deeper(inner, 1),
        next: end,
    })
}

// Of the first test of rows, with the brackets before it, in a scope.
#[cycle(shapes)]
fn shape_of_first(
    tables: &Tables,
    filter: &FilterText<'_>,
    rows: &[u32],
    scope: u8,
    calls: usize,
) -> Option<Begun>
    requires in_bounds { 1 ≤ length rows.now }
    requires rows_len_bound { length rows.now ≤ 320 }
    ensures { Began tables.now.kinds tables.now.parents filter.now scope calls rows.now result }
{
    match row_of(rows[0]) {
        Row::Test(probe) => {
            if stands(tables, filter, probe, scope) {
                let shape = Shape {
                    tests: 1,
                    chain: 0,
                    item: 0,
                };
                return Some(Begun { shape, next: 1 });
            }
            None
        }
        Row::Bracket(size) => {
            if scope > 0 {
                return None;
            }
            shape_in_brackets(tables, filter, rows, size, calls)
        }
        _ => None,
    }
}

// Of all rows, with the shape of those before the next in hand.
#[cycle(shapes)]
fn shape_with(
    tables: &Tables,
    filter: &FilterText<'_>,
    rows: &[u32],
    scope: u8,
    calls: usize,
    begun: Begun,
) -> Option<Shape>
    requires rows_len_bound { length rows.now ≤ 320 }
    requires in_hand { InHand tables.now.kinds tables.now.parents filter.now scope calls rows.now begun.next begun.shape }
    ensures { result ≡ shape_by (fits_in tables.now.kinds tables.now.parents filter.now scope) (stated_in (suc calls) rows.now) }
{
    let mut shape = begun.shape;
    let mut at = begun.next;
    // no for: the rows of a second part are passed over at once
    while at < rows.len() {
        match row_of(rows[at]) {
            Row::Not => {
                shape = deeper(shape, 0);
                at += 1;
            }
            Row::Connect(_, size) => {
                let start = at + 1;
                if size > rows.len() - start {
                    return None;
                }
                let end = start + size;
                let part = &rows[start..end];
                let second = shape_of(tables, filter, part, scope, calls)?;
                shape = joined(shape, second);
                at = end;
            }
            _ => return None,
        }
    }
    Some(shape)
}

// Of what rows state in a scope, by at most so many calls within calls.
#[cycle(shapes)]
pub fn shape_of(
    tables: &Tables,
    filter: &FilterText<'_>,
    rows: &[u32],
    scope: u8,
    calls: usize,
) -> Option<Shape>
    requires rows_len_bound { length rows.now ≤ 320 }
    ensures { result ≡ shape_by (fits_in tables.now.kinds tables.now.parents filter.now scope) (stated_in calls rows.now) }
{
    if calls == 0 {
        return None;
    }
    if rows.len() == 0 {
        return None;
    }
    let inner = calls - 1;
    let begun = shape_of_first(tables, filter, rows, scope, inner)?;
    shape_with(tables, filter, rows, scope, inner, begun)
}

// The walk that writes: a filter and an item call each other, and the text left and the nesting left fall. It goes over a text
// that is known to be a filter.
ghost use Rattle.std.specs.Prelude.{true, false, ◌≤◌, ◌<◌, length};
ghost use Rattle.syntax.specs.Reader.{item_at, filter_at, bracket_at, chosen_at};
ghost use Rattle.plain.specs.Plain.{connective_text, plain, operand};
ghost use Rattle.base.specs.Writing.{Room, Puts};
ghost use Rattle.spell.specs.Walks.{RoomFor, Spelt, joined, choice_text, member_text};

use crate::{Spot, Written};
use base::write_word;
use plain::{bracket_join, write_test};
use syntax::{Connective, FilterTest, FilterText, Head};

// Writes a connective with a space on either side, and answers its length.
fn write_connective(connective: Connective, out: &mut [u8]) -> usize
    requires { Room (connective_text connective) out.old }
    ensures { Puts (connective_text connective) out.old out.new result }
{
    match connective {
        Connective::And => write_word(b" and ", out),
        Connective::Or => write_word(b" or ", out),
    }
}

// Writes a name and the square bracket after it, and answers the length of both.
fn write_choice(name: &[u8], out: &mut [u8]) -> usize
    requires { Room (choice_text name.now) out.old }
    ensures { Puts (choice_text name.now) out.old out.new result }
{
    let end = write_word(name, out);
    end + write_word(b"[", &mut out[end..])
}

// Writes what stands after a filter in square brackets, and answers its length.
fn write_member(test: &FilterTest<'_>, out: &mut [u8]) -> usize
    requires operator_bound { test.now.operator < 19 }
    requires room { Room (member_text test.now) out.old }
    ensures { Puts (member_text test.now) out.old out.new result }
{
    let end = write_word(b"].", out);
    end + write_test(test, &mut out[end..])
}

// Writes the filter in round brackets after not, which begins at a position inside them: "not(", the filter, ")".
#[cycle(writing)]
fn write_not(filter: &FilterText<'_>, at: usize, levels: usize, out: &mut [u8]) -> Written
    requires at_in_bounds { at ≤ length filter.now }
    requires room_for { RoomFor plain (bracket_at levels filter.now true at) out.old }
    ensures { Spelt plain (bracket_at levels filter.now true at) out.old out.new result }
{
    let start = write_word(b"not(", out);
    let inner = write_filter(
        filter,
        Spot {
            at,
            levels,
            close: b')',
        },
        &mut out[start..],
    );
    let end = start + inner.length;
    let last = write_word(b")", &mut out[end..]);
    Written {
        end: filter.skip(inner.end) + 1,
        length: end + last,
        join: false,
    }
}

// Writes the filter in round brackets, which begins at a position inside them; the brackets are left out.
#[cycle(writing)]
fn write_round(filter: &FilterText<'_>, at: usize, levels: usize, out: &mut [u8]) -> Written
    requires at_in_bounds { at ≤ length filter.now }
    requires room_for { RoomFor plain (bracket_at levels filter.now false at) out.old }
    ensures { Spelt plain (bracket_at levels filter.now false at) out.old out.new result }
{
    let inner = write_filter(
        filter,
        Spot {
            at,
            levels,
            close: b')',
        },
        out,
    );
    Written {
        end: filter.skip(inner.end) + 1,
        length: inner.length,
        join: inner.join,
    }
}

// Writes the test of a member at a spot, after the filter in square brackets of the bundle whose name ends at `until`.
#[cycle(writing)]
fn write_chosen(filter: &FilterText<'_>, spot: Spot, until: usize, out: &mut [u8]) -> Written
    requires at_le_until { spot.at ≤ until }
    requires until_in_bounds { until < length filter.now }
    requires room_for { RoomFor plain (chosen_at spot.levels filter.now spot.close spot.at until) out.old }
    ensures { Spelt plain (chosen_at spot.levels filter.now spot.close spot.at until) out.old out.new result }
{
    let at = spot.at;
    let levels = spot.levels;
    let close = spot.close;
    let start = write_choice(filter.part(at, until), out);
    let next = filter.skip_after(until);
    let inner = write_filter(
        filter,
        Spot {
            at: next,
            levels,
            close: b']',
        },
        &mut out[start..],
    );
    let end = start + inner.length;
    let Some(raw) = filter.read_member(close, inner.end) else {
        return inner;
    };
    let test = FilterTest {
        text: &*filter,
        raw,
    };
    let last = write_member(&test, &mut out[end..]);
    Written {
        end: raw.value.next,
        length: end + last,
        join: false,
    }
}

// Writes the item at a spot: "a test, a filter in round brackets, or not followed by a filter in round brackets", or the test of a
// member after its bundle's brackets.
#[cycle(writing)]
fn write_item(filter: &FilterText<'_>, spot: Spot, out: &mut [u8]) -> Written
    requires at_in_bounds { spot.at ≤ length filter.now }
    requires room_for { RoomFor plain (item_at spot.levels filter.now spot.close spot.at) out.old }
    ensures { Spelt plain (item_at spot.levels filter.now spot.close spot.at) out.old out.new result }
{
    let at = spot.at;
    let levels = spot.levels;
    let close = spot.close;
    let Some(head) = filter.read_head(close, at) else {
        return Written {
            end: at,
            length: 0,
            join: false,
        };
    };
    match head {
        Head::Test(raw) => {
            let test = FilterTest {
                text: &*filter,
                raw,
            };
            let length = write_test(&test, out);
            Written {
                end: raw.value.next,
                length,
                join: false,
            }
        }
        Head::Open(next, negated) => {
            if negated {
                return write_not(filter, next, levels - 1, out);
            }
            write_round(filter, next, levels - 1, out)
        }
        Head::Choice(until) => write_chosen(
            filter,
            Spot {
                at,
                levels: levels - 1,
                close,
            },
            until,
            out,
        ),
    }
}

// Writes the item at a spot as it stands after a connective: in brackets where it is a join.
#[cycle(writing)]
fn write_operand(filter: &FilterText<'_>, spot: Spot, out: &mut [u8]) -> Written
    requires at_in_bounds { spot.at ≤ length filter.now }
    requires room_for { RoomFor operand (item_at spot.levels filter.now spot.close spot.at) out.old }
    ensures { Spelt operand (item_at spot.levels filter.now spot.close spot.at) out.old out.new result }
{
    let item = write_item(filter, spot, out);
    Written {
        end: item.end,
        length: bracket_join(item.join, item.length, out),
        join: item.join,
    }
}

// Writes a connective and the item at a spot after it.
#[cycle(writing)]
fn write_joined(
    filter: &FilterText<'_>,
    connective: Connective,
    spot: Spot,
    out: &mut [u8],
) -> Written
    requires at_in_bounds { spot.at ≤ length filter.now }
    requires room_for { RoomFor (joined connective) (item_at spot.levels filter.now spot.close spot.at) out.old }
    ensures { Spelt (joined connective) (item_at spot.levels filter.now spot.close spot.at) out.old out.new result }
{
    let start = write_connective(connective, out);
    let item = write_operand(filter, spot, &mut out[start..]);
    Written {
        end: item.end,
        length: start + item.length,
        join: item.join,
    }
}

// Writes the filter at a spot: "one or more items joined by and or or", from left to right.
#[cycle(writing)]
pub fn write_filter(filter: &FilterText<'_>, spot: Spot, out: &mut [u8]) -> Written
    requires at_in_bounds { spot.at ≤ length filter.now }
    requires room_for { RoomFor plain (filter_at spot.levels filter.now spot.close spot.at) out.old }
    ensures { Spelt plain (filter_at spot.levels filter.now spot.close spot.at) out.old out.new result }
{
    let at = spot.at;
    let levels = spot.levels;
    let close = spot.close;
    let mut written = write_item(filter, Spot { at, levels, close }, out);
    // no for: where the next item begins is known when the one before it was read
    while let Some(link) = filter.read_connective(written.end) {
        let length = written.length;
        let more = write_joined(
            filter,
            link.connective,
            Spot {
                at: link.next,
                levels,
                close,
            },
            &mut out[length..],
        );
        written = Written {
            end: more.end,
            length: length + more.length,
            join: true,
        };
    }
    written
}

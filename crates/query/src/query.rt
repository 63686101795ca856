// A query as it is kept: a row for each alternative, up to 32, over one buffer of decoded bytes.
ghost use Rattle.std.specs.Prelude.{◌≡◌, ◌+◌, ◌≤◌, ◌<◌, length};
ghost use Rattle.query.specs.Rows.{pushed, PairHeld, QueryOf, AcceptsQuery};

use crate::pair::read_pair;
use crate::pieces::next_alternative;
use crate::{Held, Row, Rows};
use refusal::{Reason, Refusal};

// The rows with one more; beyond 32 they are only counted.
fn push(q: Rows, row: Row) -> Rows
    requires { q.count < 4096 }
    ensures { result ≡ pushed q row }
{
    let k = q.count;
    let mut next = q;
    next.count = k + 1;
    if k < 32 {
        next.rows[k] = row;
        return next;
    }
    next
}

// Keeps the alternatives of a decoded value, with the name that stands in the buffer from `name` up to `until`; their texts
// are written from `start` on. Of its parameters each is another place or list, which read_query has in hand.
pub fn keep_pair(
    value: &[u8],
    at: usize,
    name: usize,
    until: usize,
    start: usize,
    bytes: &mut [u8],
    entry: Rows,
) -> Held
    requires start_in_bounds { length value.now + start ≤ length bytes.old }
    requires name_le_until { name ≤ until }
    requires until_le_start { until ≤ start }
    requires value_bound { entry.count + length value.now < 4000 }
    ensures { PairHeld value.now at name until start bytes.old entry bytes.new result }
{
    let mut rows = entry;
    let mut used = start;
    let mut next = Some(0);
    // no for: where an alternative begins is known once the one before it is written
    while let Some(from) = next {
        let piece = next_alternative(value, from, &mut bytes[used..]);
        let end = used + piece.len;
        rows = push(
            rows,
            Row {
                at,
                name,
                until,
                text: used,
                end,
                split: piece.split,
                last: piece.next.is_none(),
            },
        );
        used = end;
        next = piece.next;
    }
    Held { rows, used }
}

// Rows that keep nothing.
pub fn no_rows() -> Rows
    ensures { (result.count ≡ 0) × (length result.rows ≡ 32) }
{
    Rows {
        count: 0,
        rows: [Row {
            at: 0,
            name: 0,
            until: 0,
            text: 0,
            end: 0,
            split: 0,
            last: false,
        }; 32],
    }
}

// Reads the pairs of a search string: a row for each alternative, over the bytes that are written into the buffer; or where
// the first pair begins that is none. The bound of 1,024 stays a clause: its one caller has just tested it.
pub fn read_query(text: &[u8], bytes: &mut [u8]) -> Result<Rows, Refusal>
    requires text_len_bound { length text.now ≤ 1024 }
    requires text_in_bounds { length text.now ≤ length bytes.old }
    ensures { QueryOf text.now bytes.new result }
{
    let mut rows = no_rows();
    let mut used = 0;
    let mut at = 0;
    // fixed memory, for the longest value of the longest search string
    let mut value = [0u8; 1024];
    // not `split`: a refusal names the position at which the bad pair begins
    loop {
        let end = base::first_from(text, at, b'&');
        let read = read_pair(&text[at..end], &mut bytes[used..], &mut value);
        let Some(lengths) = read else {
            return Err(Refusal {
                reason: Reason::NoPair,
                place: at,
            });
        };
        let until = used + lengths.name;
        let held = keep_pair(&value[..lengths.value], at, used, until, until, bytes, rows);
        rows = held.rows;
        used = held.used;
        if end == text.len() {
            return Ok(rows);
        }
        at = end + 1;
    }
}

// Reads a search string: its alternatives, or 10, 50 or 51, in this order.
pub fn accept_query(text: &[u8], bytes: &mut [u8]) -> Result<Rows, Refusal>
    requires { 1024 ≤ length bytes.old }
    ensures { AcceptsQuery text.now bytes.new result }
{
    if text.len() == 0 {
        return Err(Refusal {
            reason: Reason::FilterSize,
            place: 0,
        });
    }
    if text.len() > 1024 {
        return Err(Refusal {
            reason: Reason::FilterSize,
            place: 0,
        });
    }
    let rows = read_query(text, bytes)?;
    let many = rows.count > 32;
    if many {
        return Err(Refusal {
            reason: Reason::ManyAlternatives,
            place: 0,
        });
    }
    Ok(rows)
}

// The plain spelling of a filter, written into a buffer that the caller lends.
#![tactic(auto)]

mod walk;

ghost use Rattle.std.specs.Prelude.{◌≡◌, ◌+◌, ◌≤◌, leb, length};
ghost use Rattle.spell.specs.Spelling.{SpellsInto, IsFilter, TextRoom, TextSpelt, TextLength, PlacedInto};

use place::find;
use refusal::{Reason, Refusal, refuse};
use syntax::FilterText;
use walk::write_filter;

// A position in the filter's text, how many brackets may still open around it, and the byte that closes the one around it. That it lies in
// the text is a clause, for `filter::Spot`'s reason.
#[derive(Clone, Copy)]
pub struct Spot {
    pub at: usize,
    pub levels: usize,
    pub close: u8,
}

// Where a filter or an item that was written ends, the length of what was written, and whether it is a join.
#[derive(Clone, Copy)]
pub struct Written {
    pub end: usize,
    pub length: usize,
    // no Option: what was written has an end and a length whether it is a join or not
    pub join: bool,
}

// Writes the plain spelling of a filter, and answers its length.
fn write_text(filter: &FilterText<'_>, out: &mut [u8]) -> usize
    requires { TextRoom filter.now out.old }
    ensures { TextSpelt filter.now out.old out.new result }
{
    let start = filter.skip(0);
    let written = write_filter(
        filter,
        Spot {
            at: start,
            levels: 8,
            close: b')',
        },
        out,
    );
    written.length
}

// The length of a filter's plain spelling. It is no longer than the filter, so that it is written out to be measured.
fn measure(filter: &FilterText<'_>) -> usize
    requires { IsFilter filter.now }
    ensures { TextLength filter.now result }
{
    // fixed memory, for the longest filter
    let mut out = [0u8; 1024];
    write_text(filter, &mut out[..filter.len()])
}

// Whether so many bytes have room in a buffer of a size from a place on. Their sum might not fit, so it is not made.
fn has_room(size: usize, from: usize, length: usize) -> bool
    ensures { result ≡ leb (from + length) size }
{
    if size < from {
        return false;
    }
    length <= size - from
}

// Writes the plain spelling of a filter into the buffer from a place on, if there is room.
fn place_text(filter: &FilterText<'_>, buffer: &mut [u8], from: usize) -> Result<usize, Refusal>
    requires { IsFilter filter.now }
    ensures { PlacedInto filter.now buffer.old from result buffer.new }
{
    let length = measure(filter);
    if has_room(buffer.len(), from, length) {
        let written = write_text(filter, &mut buffer[from..]);
        return Ok(written);
    }
    refuse(Reason::ShortBuffer, length)
}

// Writes the plain spelling of a filter into the buffer from a place on, and answers its length; or why not, and then the buffer is as
// it was.
pub fn spell(filter: &[u8], buffer: &mut [u8], from: usize) -> Result<usize, Refusal>
    ensures { SpellsInto filter.now buffer.old from result buffer.new }
{
    let Some(text) = FilterText::read(filter) else {
        return refuse(Reason::FilterSize, 0);
    };
    find(filter)?;
    place_text(&text, buffer, from)
}

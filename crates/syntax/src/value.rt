// Values: bare words, and strings with escapes. That a position lies in the text is a clause, for the reason in `lib`.
ghost use Rattle.std.specs.Prelude.{◌≡◌, false, ◌+◌, ◌≤◌, length};
ghost use Rattle.base.specs.Runs.{RunEnd};
ghost use Rattle.syntax.specs.Strings.{is_bare, is_escape, unescaped};
ghost use Rattle.syntax.specs.Scan.{step_of, string_at, value_at, piece_of, Decoded};

use crate::scan::run_end;
use crate::{RawValue, StringEnd, StringStep};

// Whether a byte may stand in a bare word: "bytes 0x21 to 0x7E, without ")" and "]"".
pub fn is_bare(b: u8) -> bool
    ensures { result ≡ is_bare b }
{
    if b < 0x21 {
        return false;
    }
    if b > 0x7e {
        return false;
    }
    b != b')' && b != b']'
}

// The first position from `at` on where no byte of a bare word stands.
fn bare_end(s: &[u8], at: usize) -> usize
    requires { at ≤ length s.now }
    ensures { RunEnd is_bare s.now at result }
{
    run_end(s, at, is_bare)
}

// Whether a byte may follow a backslash: "the JSON escapes \" \\ \/ \b \f \n \r \t".
fn is_escape(b: u8) -> bool
    ensures { result ≡ is_escape b }
{
    matches!(b, b'"' | b'\\' | b'/' | b'b' | b'f' | b'n' | b'r' | b't')
}

// What a backslash and the byte stand for.
// The other way round than `escape_of` of `plain`: a table for both would have to be searched from either side, and be no plainer.
fn unescaped(b: u8) -> u8
    ensures { result ≡ unescaped b }
{
    match b {
        b'b' => 0x08,
        b'f' => 0x0c,
        b'n' => 0x0a,
        b'r' => 0x0d,
        b't' => 0x09,
        _ => b,
    }
}

// What a byte does in a string, where `pending` says that a backslash stands before it.
pub fn string_step(pending: bool, b: u8) -> StringStep
    ensures { result ≡ step_of pending b }
{
    if pending {
        if is_escape(b) {
            return StringStep::More(false);
        }
        return StringStep::Wrong;
    }
    if b == b'"' {
        return StringStep::Close;
    }
    if b == b'\\' {
        return StringStep::More(true);
    }
    if b < 0x20 {
        return StringStep::Wrong;
    }
    StringStep::More(false)
}

// The closing quote of a string whose first byte, after the opening quote, is at the position.
fn read_string(s: &[u8], at: usize) -> Option<StringEnd>
    requires { at ≤ length s.now }
    ensures { result ≡ string_at s.now false false at }
{
    let mut pending = false;
    let mut escaped = false;
    for end in at..s.len() {
        match string_step(pending, s[end]) {
            StringStep::More(next) => {
                escaped |= next;
                pending = next;
            }
            StringStep::Close => return Some(StringEnd { end, escaped }),
            StringStep::Wrong => return None,
        }
    }
    None
}

// The value that begins at a position: "a quoted string or a bare word".
pub fn read_value(s: &[u8], at: usize) -> Option<RawValue>
    ensures { result ≡ value_at s.now at }
{
    if at >= s.len() {
        return None;
    }
    let b = s[at];
    if b == b'"' {
        let start = at + 1;
        let string = read_string(s, start)?;
        return Some(RawValue {
            start,
            end: string.end,
            escaped: string.escaped,
            next: string.end + 1,
        });
    }
    if is_bare(b) {
        let end = bare_end(s, at);
        return Some(RawValue {
            start: at,
            end,
            escaped: false,
            next: end,
        });
    }
    None
}

// What a byte of a string adds to the value, where `pending` says that a backslash stands before it.
fn piece(pending: bool, b: u8) -> Option<u8>
    ensures { result ≡ piece_of pending b }
{
    if pending {
        return Some(unescaped(b));
    }
    if b == b'\\' {
        return None;
    }
    Some(b)
}

// Writes the value of a string's bytes, with each escape resolved, from the buffer's first byte, and answers its length.
pub fn decode(raw: &[u8], out: &mut [u8]) -> usize
    requires { length raw.now ≤ length out.old }
    ensures { Decoded raw.now out.new result }
{
    let mut n = 0;
    let mut pending = false;
    for &b in raw {
        match piece(pending, b) {
            Some(b) => {
                out[n] = b;
                n += 1;
                pending = false;
            }
            None => pending = true,
        }
    }
    n
}

// Alternatives of a decoded value: a comma cuts, a bar splits a token, and a backslash makes them plain.
ghost use Rattle.std.specs.Prelude.{◌≡◌, ◌≤◌, ◌<◌, ◌-◌, length};
ghost use Rattle.query.specs.Reader.{is_special};
ghost use Rattle.query.specs.Scan.{mark_at, PieceOf};

use crate::{Mark, Piece};

// Whether a backslash makes the byte plain.
fn is_special(b: u8) -> bool
    ensures { result ≡ is_special b }
{
    match b {
        b',' | b'|' | b'$' | b'\\' => true,
        _ => false,
    }
}

// What stands at a position of a decoded value. That positions are within their text stays a clause: a type for one would hold the text too,
// and be made anew at each mark.
fn mark_at(s: &[u8], at: usize) -> Mark
    requires { at < length s.now }
    ensures { result ≡ mark_at s.now at }
{
    let b = s[at];
    if b == b'\\' {
        if at + 1 >= s.len() {
            return Mark::Byte(b, at + 1);
        }
        let c = s[at + 1];
        if is_special(c) {
            return Mark::Byte(c, at + 2);
        }
        return Mark::Byte(b, at + 1);
    }
    if b == b',' {
        return Mark::Cut(at + 1);
    }
    if b == b'|' {
        return Mark::Split(at + 1);
    }
    Mark::Byte(b, at + 1)
}

// Writes the alternative that begins at a position.
pub fn next_alternative(s: &[u8], at: usize, out: &mut [u8]) -> Piece
    requires at_in_bounds { at ≤ length s.now }
    requires at_in_bounds_2 { length s.now - at ≤ length out.old }
    ensures { PieceOf s.now at out.new result }
{
    let mut i = at;
    let mut n = 0;
    let mut split = None;
    // no for: a mark is one byte or two
    while i < s.len() {
        match mark_at(s, i) {
            Mark::Byte(b, next) => {
                out[n] = b;
                n += 1;
                i = next;
            }
            Mark::Split(next) => {
                out[n] = b'|';
                split = split.or(Some(n));
                n += 1;
                i = next;
            }
            Mark::Cut(next) => {
                return Piece {
                    len: n,
                    split: split.unwrap_or(n),
                    next: Some(next),
                };
            }
        }
    }
    Piece {
        len: n,
        split: split.unwrap_or(n),
        next: None,
    }
}

// The encoding of names and values: "+" is a space and % with two hex digits a byte.
ghost use Rattle.std.specs.Prelude.{◌≡◌, ◌≤◌, ◌<◌, length, IfSome};
ghost use Rattle.query.specs.Reader.{hex_value, hex_byte};
ghost use Rattle.query.specs.Scan.{unit_at, DecodesTo};

use crate::DecodedByte;

// The value of a hex digit in either case.
#[tactic(auto, unfolding(crate::specs::Reader::hex_value, base::specs::Digits::is_digit, base::specs::Between::between))]
fn hex_value(b: u8) -> Option<u8>
    ensures value { result ≡ hex_value b }
    ensures most { IfSome result (λ v. v < 16) }
{
    match b {
        b'0'..=b'9' => Some(b - b'0'),
        b'A'..=b'F' => Some(b - b'A' + 10),
        b'a'..=b'f' => Some(b - b'a' + 10),
        _ => None,
    }
}

// The byte of two hex digits.
fn hex_byte(high: u8, low: u8) -> Option<u8>
    ensures { result ≡ hex_byte (hex_value high) (hex_value low) }
{
    let h = hex_value(high)?;
    let l = hex_value(low)?;
    Some(h * 16 + l)
}

// The byte that stands encoded at a position; None for a bad %. That it is within the text stays a clause, as in pieces.
fn unit_at(raw: &[u8], at: usize) -> Option<DecodedByte>
    requires { at < length raw.now }
    ensures { result ≡ unit_at raw.now at }
{
    let b = raw[at];
    if b == b'%' {
        if raw.len() - at <= 2 {
            return None;
        }
        let byte = hex_byte(raw[at + 1], raw[at + 2])?;
        return Some(DecodedByte { byte, next: at + 3 });
    }
    let next = at + 1;
    if b == b'+' {
        return Some(DecodedByte { byte: b' ', next });
    }
    Some(DecodedByte { byte: b, next })
}

// Writes the bytes that a name or a value stands for, and answers how many; None where a % is bad.
pub fn decode(raw: &[u8], out: &mut [u8]) -> Option<usize>
    requires { length raw.now ≤ length out.old }
    ensures { DecodesTo raw.now out.new result }
{
    let mut i = 0;
    let mut n = 0;
    // no for: a unit is one byte or three
    while i < raw.len() {
        let unit = unit_at(raw, i)?;
        out[n] = unit.byte;
        n += 1;
        i = unit.next;
    }
    Some(n)
}

// Values in their plain spelling: "a bare word wherever the value can be one, else a string in its shortest form". Each writer
// puts its text over the first bytes of the part that it is lent.
ghost use Rattle.std.specs.Prelude.{◌≡◌, false, ◌≤◌, length};
ghost use Rattle.base.specs.Lists.{every};
ghost use Rattle.syntax.specs.Strings.{is_bare, is_plain};
ghost use Rattle.syntax.specs.Scan.{decode as decoded};
ghost use Rattle.plain.specs.Plain.{is_word, escape_of, escaped, plain_value};
ghost use Rattle.base.specs.Writing.{Room, Puts};
ghost use Rattle.plain.specs.Writing.{escaped_byte, quoted};

use base::write_word;
use syntax::FilterTest;
use syntax::value::{decode, is_bare};

// Whether every byte may stand in a bare word.
fn all_bare(value: &[u8]) -> bool
    ensures { result ≡ every is_bare value.now }
{
    value.iter().all(|&b| is_bare(b))
}

// Whether a value can be a bare word.
fn is_word(value: &[u8]) -> bool
    ensures { result ≡ is_word value.now }
{
    if value.len() == 0 {
        return false;
    }
    if value[0] == b'"' {
        return false;
    }
    all_bare(value)
}

// Whether a byte may stand in a string as it is: "bytes from 0x20 up save double quote and backslash".
#[tactic(auto, using(crate::proofs::Bytes::plain_low))]
fn is_plain(b: u8) -> bool
    ensures { result ≡ is_plain b }
{
    if b < 0x20 {
        return false;
    }
    b != b'"' && b != b'\\'
}

// The byte that stands after a backslash for one that may not.
// The other way round than `unescaped` of `syntax`: a table for both would have to be searched from either side, and be no plainer.
fn escape_of(b: u8) -> u8
    ensures { result ≡ escape_of b }
{
    match b {
        0x08 => b'b',
        0x0c => b'f',
        0x0a => b'n',
        0x0d => b'r',
        0x09 => b't',
        _ => b,
    }
}

// Writes a byte of a value as it stands in a string, and answers how many bytes that takes.
fn write_escaped_byte(b: u8, out: &mut [u8]) -> usize
    requires { Room (escaped_byte b) out.old }
    ensures { Puts (escaped_byte b) out.old out.new result }
{
    if is_plain(b) {
        return write_word(&[b], out);
    }
    write_word(&[b'\\', escape_of(b)], out)
}

// Writes what stands between a string's quotes, and answers its length.
fn write_escaped(value: &[u8], out: &mut [u8]) -> usize
    requires { Room (escaped value.now) out.old }
    ensures { Puts (escaped value.now) out.old out.new result }
{
    let mut n = 0;
    for &b in value {
        n += write_escaped_byte(b, &mut out[n..]);
    }
    n
}

// Writes a value as a string, and answers its length.
fn write_string(value: &[u8], out: &mut [u8]) -> usize
    requires { Room (quoted value.now) out.old }
    ensures { Puts (quoted value.now) out.old out.new result }
{
    let start = write_word(b"\"", out);
    let inner = write_escaped(value, &mut out[start..]);
    let end = start + inner;
    end + write_word(b"\"", &mut out[end..])
}

// Writes a value in its plain spelling, and answers its length.
fn write_plain(value: &[u8], out: &mut [u8]) -> usize
    requires { Room (plain_value value.now) out.old }
    ensures { Puts (plain_value value.now) out.old out.new result }
{
    if is_word(value) {
        return write_word(value, out);
    }
    write_string(value, out)
}

// Writes the value of a string's bytes that have escapes.
fn write_decoded(raw: &[u8], out: &mut [u8]) -> usize
    requires raw_len_bound { length raw.now ≤ 1024 }
    requires room { Room (plain_value (decoded false raw.now)) out.old }
    ensures { Puts (plain_value (decoded false raw.now)) out.old out.new result }
{
    // fixed memory, for the longest value of the longest filter
    let mut value = [0u8; 1024];
    let n = decode(raw, &mut value);
    write_plain(&value[..n], out)
}

// Writes the value of a test in its plain spelling, and answers its length.
pub fn write_value(test: &FilterTest<'_>, out: &mut [u8]) -> usize
    requires { Room (plain_value test.now.value) out.old }
    ensures { Puts (plain_value test.now.value) out.old out.new result }
{
    // not by `of_value`: of a closure that writes into what it captures nothing is known where it is called
    let value = test.value();
    if value.escaped {
        return write_decoded(value.bytes, out);
    }
    write_plain(value.bytes, out)
}

// What every layer uses: whether a byte is a digit, whether two texts are the same, where a byte stands, writing a text
// into a buffer, and names.
#![tactic(auto)]

pub mod kind;
pub mod name;
pub mod operator;

ghost use Rattle.std.specs.Prelude.{◌≡◌, ◌≤◌, ◌<◌, length};
ghost use Rattle.base.specs.Digits.{is_digit};
ghost use Rattle.base.specs.Lists.{equal};
ghost use Rattle.base.specs.Runs.{differs, RunEnd};
ghost use Rattle.base.specs.Split.{first_of};
ghost use Rattle.base.specs.Writing.{Room, Puts};

// Whether a byte is one of the digits 0 to 9.
#[tactic(auto, unfolding(crate::specs::Digits::is_digit))]
pub fn is_digit(b: u8) -> bool
    ensures { result ≡ is_digit b }
{
    b.is_ascii_digit()
}

// Whether two slices hold the same bytes. It stays beside `==`, since the definitions of names and words ask for `equal`.
#[tactic(auto, using(crate::proofs::Lists::pointwise_equal))]
pub fn equal(a: &[u8], b: &[u8]) -> bool
    ensures { result ≡ equal a.now b.now }
{
    a == b
}

// The first position from `from` on where the byte stands, or the end.
pub fn first_from(s: &[u8], from: usize, byte: u8) -> usize
    requires { from ≤ length s.now }
    ensures { RunEnd (differs byte) s.now from result }
{
    s[from..]
        .iter()
        .position(|b| *b == byte)
        .map_or(s.len(), |before| from + before)
}

// The first position where the byte stands, or the length where it does not.
pub fn first_of(s: &[u8], byte: u8) -> usize
    ensures { (result ≡ first_of byte s.now) × (result ≤ length s.now) }
{
    first_from(s, 0, byte)
}

// Writes the word over the first bytes of a part, and answers its length.
pub fn write_word(word: &[u8], out: &mut [u8]) -> usize
    requires { Room word.now out.old }
    ensures { Puts word.now out.old out.new result }
{
    out[..word.len()].copy_from_slice(word);
    word.len()
}

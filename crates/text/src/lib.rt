// Comparisons of texts that ignore the case of A to Z and of the letters U+00C0 to U+00DE.
// All comparisons read a text folded, through `folded_at` alone.
#![tactic(auto)]

ghost use Rattle.std.specs.Prelude.{◌≡◌, ◌+◌, ◌≤◌, ◌<◌, ◌∷◌, eqb, length, get_or, drop};
ghost use Rattle.text.specs.Fold.{is_capital, lead, is_accented, fold_text};
ghost use Rattle.base.specs.Affixes.{has_prefix};
ghost use Rattle.text.specs.Compare.{same, starts, ends, contains};

// Whether a byte is a capital of A to Z.
#[tactic(auto, unfolding(crate::specs::Fold::is_capital))]
fn is_capital(b: u8) -> bool
    ensures { result ≡ is_capital b }
{
    b.is_ascii_uppercase()
}

// Whether a byte is the second of a capital from U+00C0 to U+00DE, if 0xC3 stands before it.
#[tactic(auto, unfolding(crate::specs::Fold::is_accented))]
fn is_accented(b: u8) -> bool
    ensures { result ≡ is_accented b }
{
    matches!(b, 0x80..=0x9E) && b != 0x97
}

// Whether the byte straight before an index is 0xC3; no byte stands before the first.
fn follows_lead(s: &[u8], i: usize) -> bool
    requires { i < length s.now }
    ensures { result ≡ eqb (get_or (0 ∷ s.now) i 0) lead }
{
    i > 0 && s[i - 1] == 0xC3
}

// The byte at an index of the folded text. The byte before is looked at only where the byte can fold by it, which is seldom.
#[tactic(auto, using(crate::proofs::Fold::folded_is, crate::proofs::Fold::capital_most, crate::proofs::Fold::accented_most))]
fn folded_at(s: &[u8], i: usize) -> u8
    requires { i < length s.now }
    ensures { result ≡ get_or (fold_text s.now) i 0 }
{
    let b = s[i];
    if is_capital(b) || (is_accented(b) && follows_lead(s, i)) {
        b + 32
    } else {
        b
    }
}

// Whether b stands in a from an index on.
fn begins_at(a: &[u8], at: usize, b: &[u8]) -> bool
    requires { at + length b.now ≤ length a.now }
    ensures { result ≡ has_prefix (drop at (fold_text a.now)) (fold_text b.now) }
{
    (0..b.len()).all(|i| folded_at(a, at + i) == folded_at(b, i))
}

// Whether the two texts are the same.
pub fn same(a: &[u8], b: &[u8]) -> bool
    ensures { result ≡ same a.now b.now }
{
    if a.len() != b.len() {
        return false;
    }
    begins_at(a, 0, b)
}

// Whether a starts with b.
pub fn starts(a: &[u8], b: &[u8]) -> bool
    ensures { result ≡ starts a.now b.now }
{
    if a.len() < b.len() {
        return false;
    }
    begins_at(a, 0, b)
}

// Whether a ends with b.
pub fn ends(a: &[u8], b: &[u8]) -> bool
    ensures { result ≡ ends a.now b.now }
{
    if a.len() < b.len() {
        return false;
    }
    begins_at(a, a.len() - b.len(), b)
}

// `begins_at` with the first byte of b, folded: most positions are left there, since folding keeps a byte's last five bits.
fn begins_by(a: &[u8], at: usize, b: &[u8], first: u8) -> bool
    requires b_in_bounds { at + length b.now ≤ length a.now }
    requires b_nonzero { 0 < length b.now }
    requires first_value { first ≡ get_or (fold_text b.now) 0 0 }
    ensures { result ≡ has_prefix (drop at (fold_text a.now)) (fold_text b.now) }
{
    if a[at] % 32 != first % 32 {
        return false;
    }
    begins_at(a, at, b)
}

// Whether a holds b somewhere.
pub fn contains(a: &[u8], b: &[u8]) -> bool
    ensures { result ≡ contains a.now b.now }
{
    if b.is_empty() {
        return true;
    }
    if a.len() < b.len() {
        return false;
    }
    let first = folded_at(b, 0);
    let places = a.len() - b.len() + 1;
    (0..places).any(|at| begins_by(a, at, b, first))
}

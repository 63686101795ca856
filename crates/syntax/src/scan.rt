// Spaces, words and runs of bytes. That a position lies in the text is a clause, for the reason in `lib`.
ghost use Rattle.std.specs.Prelude.{◌≡◌, ◌≤◌, ℕ, Bool, length};
ghost use Rattle.base.specs.Names.{is_name_part};
ghost use Rattle.base.specs.Runs.{RunEnd};
ghost use Rattle.syntax.specs.Scan.{is_space, has};

// "Only the byte 0x20 is a space."
pub fn is_space(b: u8) -> bool
    ensures { result ≡ is_space b }
{
    b == b' '
}

// The first position from `at` on where a byte stands that `part` does not take, or the end.
pub fn run_end<F: Fn(u8) -> bool>(s: &[u8], at: usize, part: F) -> usize
    requires at_in_bounds { at ≤ length s.now }
    requires callable { F.IsAlwaysCallable part }
    ensures { (p : ℕ → Bool) → ((b : ℕ) (r : Bool) → F.post part b r → r ≡ p b) → RunEnd p s.now at result }
{
    // an iterator over the rest takes more instructions a call
    let mut i = at;
    while i < s.len() && part(s[i]) {
        i += 1;
    }
    i
}

// The first position from `at` on where no space stands.
pub fn skip(s: &[u8], at: usize) -> usize
    requires { at ≤ length s.now }
    ensures { RunEnd is_space s.now at result }
{
    run_end(s, at, is_space)
}

// The first position from `at` on where no byte of a name stands.
pub fn name_end(s: &[u8], at: usize) -> usize
    requires { at ≤ length s.now }
    ensures { RunEnd is_name_part s.now at result }
{
    run_end(s, at, base::name::is_name_part)
}

// Whether the word stands at a position.
pub fn has(s: &[u8], at: usize, word: &[u8]) -> bool
    requires { at ≤ length s.now }
    ensures { result ≡ has s.now at word.now }
{
    if s.len() - at < word.len() {
        return false;
    }
    let end = at + word.len();
    base::equal(&s[at..end], word)
}

// Names of parameters, on a sheet and in a filter: "A name begins with "_" or an ASCII letter and goes on with those,
// "-" or digits; it is not and, or, not". Case counts.
ghost use Rattle.std.specs.Prelude.{◌≡◌};
ghost use Rattle.base.specs.Lists.{every};
ghost use Rattle.base.specs.Names.{is_letter, is_name_start, is_name_part, is_reserved, is_name};

use crate::is_digit;

// Whether a byte is an ASCII letter.
#[tactic(auto, unfolding(crate::specs::Names::is_letter, crate::specs::Between::between))]
fn is_letter(b: u8) -> bool
    ensures { result ≡ is_letter b }
{
    b.is_ascii_alphabetic()
}

// Whether a name may begin with the byte.
#[tactic(auto, unfolding(crate::specs::Names::is_name_start))]
pub fn is_name_start(b: u8) -> bool
    ensures { result ≡ is_name_start b }
{
    b == b'_' || is_letter(b)
}

// Whether a name may go on with the byte.
#[tactic(auto, unfolding(crate::specs::Names::is_name_part))]
pub fn is_name_part(b: u8) -> bool
    ensures { result ≡ is_name_part b }
{
    is_name_start(b) || b == b'-' || is_digit(b)
}

// Whether a name may go on with each of the bytes.
fn all_name_parts(s: &[u8]) -> bool
    ensures { result ≡ every is_name_part s.now }
{
    s.iter().all(|b| is_name_part(*b))
}

// Whether the bytes are one of the words and, or, not.
#[tactic(auto, using(crate::proofs::Lists::pointwise_equal), unfolding(crate::specs::Names::is_reserved))]
pub fn is_reserved(n: &[u8]) -> bool
    ensures { result ≡ is_reserved n.now }
{
    n == b"and".as_slice() || n == b"or".as_slice() || n == b"not".as_slice()
}

// Whether the bytes are a name.
#[tactic(auto, using(crate::proofs::Names::name_empty, crate::proofs::Names::name_tests))]
pub fn is_name(n: &[u8]) -> bool
    ensures { result ≡ is_name n.now }
{
    match n {
        [first, rest @ ..] => is_name_start(*first) && all_name_parts(rest) && !is_reserved(n),
        [] => false,
    }
}

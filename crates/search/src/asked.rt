// What a text asks under a kind: "numbers, dates and periods take a prefix", none meaning eq; "a string asks for a start,
// a token for 01's four forms, a reference for sameness".
ghost use Rattle.std.specs.Prelude.{ℕ, ◌≡◌, List};
ghost use Rattle.base.specs.Kinds.{kind_number};
ghost use Rattle.base.specs.Lists.{member};
ghost use Rattle.base.specs.Operators.{operator_number};
ghost use Rattle.search.specs.Asking.{prefixes, prefixed, asked_of, PrefixOf};

use crate::Prefixed;
use base::kind::Kind;
use base::operator::Operator;
use syntax::test::read_operator;

// Whether the operator's word is a prefix: eq, ne, gt, lt, ge, le, sa, eb.
#[tactic(auto, unfolding(base::specs::Lists::member))]
fn has_prefix_word(operator: Operator) -> bool
    ensures { result ≡ member (operator_number operator) prefixes }
{
    matches!(
        operator,
        Operator::Eq
            | Operator::Ne
            | Operator::Gt
            | Operator::Lt
            | Operator::Ge
            | Operator::Le
            | Operator::Sa
            | Operator::Eb
    )
}

// The same of the operator with a number. `judge::faults::unsupported` is alike in shape: another table, in one line each.
#[tactic(auto, using(crate::proofs::Prefixes::prefix_none))]
fn is_prefix(operator: u8) -> bool
    ensures { result ≡ member operator prefixes }
{
    Operator::of(operator).is_some_and(|operator| has_prefix_word(operator))
}

// What a text asks that has no prefix: it is the value, whole.
#[tactic(auto, using(crate::proofs::Prefixes::whole_text))]
fn whole(operator: Operator) -> Prefixed
    ensures { (text : List ℕ) → PrefixOf (record { operator = operator_number operator; value = text }) text result }
{
    Prefixed {
        operator: operator as u8,
        skip: 0,
    }
}

// What a text with a prefix, or without, asks.
fn prefix_asked(text: &[u8]) -> Prefixed
    ensures { PrefixOf (prefixed prefixes text.now) text.now result }
{
    match read_operator(text, 0) {
        Some(k) if is_prefix(k) => Prefixed {
            operator: k,
            skip: 2,
        },
        _ => Prefixed {
            operator: Operator::Eq as u8,
            skip: 0,
        },
    }
}

// What a text asks under a kind.
#[tactic(auto, unfolding(crate::specs::Asking::asked_of, crate::specs::Asking::takes_prefix))]
fn asked_under(kind: Kind, text: &[u8]) -> Prefixed
    ensures { PrefixOf (asked_of (kind_number kind) text.now) text.now result }
{
    match kind {
        Kind::Number | Kind::Date | Kind::Period => prefix_asked(text),
        Kind::String => whole(Operator::Sw),
        Kind::Token => whole(Operator::Eq),
        Kind::Reference | Kind::Bundle => whole(Operator::Re),
    }
}

// What a text asks under the kind with a number, and sameness where no kind has it.
#[tactic(auto, using(crate::proofs::Prefixes::asked_of_none))]
pub fn asked_of(kind: u8, text: &[u8]) -> Prefixed
    ensures { PrefixOf (asked_of kind text.now) text.now result }
{
    let Some(kind) = Kind::of(kind) else {
        return whole(Operator::Re);
    };
    asked_under(kind, text)
}

// Readable texts by kind, on a card and in a filter.
ghost use Rattle.std.specs.Prelude.{◌≡◌};
ghost use Rattle.base.specs.Kinds.{kind_number};
ghost use Rattle.kind.specs.Readable.{card_readable, filter_readable, is_true, is_false, value_readable};

use base::kind::Kind;
use base::operator::Operator;

// Whether a text is readable as a kind on a card. It is part of its callers, so that a number comes to its kind's arm by one switch.
#[tactic(auto, unfolding(crate::specs::Readable::card_readable, crate::specs::Table::of_kind, crate::specs::Table::kinds))]
#[inline(always)]
fn reads_on_card(kind: Kind, text: &[u8]) -> bool
    ensures { result ≡ card_readable (kind_number kind) text.now }
{
    match kind {
        Kind::String => true,
        Kind::Number => number::read(text).is_some(),
        Kind::Date => date::read(text).is_some(),
        Kind::Token => token::card_readable(text),
        Kind::Reference => text.len() != 0,
        Kind::Period => period::read(text).is_some(),
        Kind::Bundle => false,
    }
}

// Whether a filter's value is readable as a kind: only tokens and periods differ from a card's.
#[tactic(auto, unfolding(crate::specs::Readable::card_readable, crate::specs::Readable::filter_readable, crate::specs::Table::of_kind, crate::specs::Table::kinds, date::specs::Texts::readable))]
fn reads_in_filter(kind: Kind, value: &[u8]) -> bool
    ensures { result ≡ filter_readable (kind_number kind) value.now }
{
    match kind {
        Kind::Token => token::filter_readable(value),
        Kind::Period => date::read(value).is_some(),
        _ => reads_on_card(kind, value),
    }
}

// Whether a text is readable as the kind with a number on a card.
#[tactic(auto, using(crate::proofs::Texts::no_kind_on_card))]
pub fn card_readable(kind: u8, text: &[u8]) -> bool
    ensures { result ≡ card_readable kind text.now }
{
    Kind::of(kind).is_some_and(|kind| reads_on_card(kind, text))
}

// Whether the value of pr is true, case ignored.
#[tactic(auto, unfolding(crate::specs::Readable::is_true))]
pub fn is_true(value: &[u8]) -> bool
    ensures { result ≡ is_true value.now }
{
    text::same(value, b"true")
}

// Whether it is false, case ignored.
#[tactic(auto, unfolding(crate::specs::Readable::is_false))]
fn is_false(value: &[u8]) -> bool
    ensures { result ≡ is_false value.now }
{
    text::same(value, b"false")
}

// Whether a filter's value is readable under an operator and a kind: for pr, whether it is true or false.
#[tactic(auto, using(crate::proofs::Texts::present_true, crate::proofs::Texts::present_false, crate::proofs::Texts::value_of_kind, crate::proofs::Texts::no_kind_in_filter))]
pub fn value_readable(operator: u8, kind: u8, value: &[u8]) -> bool
    ensures { result ≡ value_readable operator kind value.now }
{
    if operator == Operator::Pr as u8 {
        return is_true(value) || is_false(value);
    }
    Kind::of(kind).is_some_and(|kind| reads_in_filter(kind, value))
}

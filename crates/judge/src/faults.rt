// The fault of a test on a sheet, whatever the card.
ghost use Rattle.std.specs.Prelude.{◌≡◌, cond, eqb};
ghost use Rattle.base.specs.Kinds.{bundle_kind};
ghost use Rattle.base.specs.Operators.{operator_number};
ghost use Rattle.kind.specs.Table.{has_meaning};
ghost use Rattle.refusal.specs.Decisions.{refuse};
ghost use Rattle.judge.specs.Faults.{unsupported, kind_fault, fault_at};

use base::kind::Kind;
use base::operator::Operator;
use kind::Meaning;
use refusal::{Reason, Refusal, refuse};
use sheet::Found;

// "word is ap, ss, sb, in or ni".
#[tactic(auto, unfolding(crate::specs::Faults::unsupported, base::specs::Lists::member))]
fn lacks_support(operator: Operator) -> bool
    ensures { result ≡ unsupported (operator_number operator) }
{
    matches!(
        operator,
        Operator::Ap | Operator::Ss | Operator::Sb | Operator::In | Operator::Ni
    )
}

// The same of the operator with a number.
#[tactic(auto, using(crate::proofs::Meaning::no_operator))]
fn unsupported(operator: u8) -> bool
    ensures { result ≡ unsupported operator }
{
    Operator::of(operator).is_some_and(|operator| lacks_support(operator))
}

// Whether an operator has a meaning for a kind.
#[tactic(auto, unfolding(kind::specs::Table::has_meaning))]
pub fn has_meaning(operator: u8, kind: u8) -> bool
    ensures { result ≡ has_meaning operator kind }
{
    matches!(
        kind::meaning_of(operator, kind),
        Meaning::Present | Meaning::Relates(_) | Meaning::Differs(_)
    )
}

// What is decided of an operator and a value for a kind, at the place of their test: the lowest number.
#[tactic(auto, unfolding(crate::specs::Faults::kind_fault))]
pub fn kind_fault(operator: u8, kind: u8, value: &[u8], place: usize) -> Result<(), Refusal>
    ensures { result ≡ kind_fault operator kind value.now place }
{
    if unsupported(operator) {
        return refuse(Reason::Unsupported, place);
    }
    if has_meaning(operator, kind) {
        if kind::value_readable(operator, kind, value) {
            return Ok(());
        }
        return refuse(Reason::Unreadable, place);
    }
    refuse(Reason::NoMeaning, place)
}

// The same at a parameter: a bundle's is refused.
fn parameter_fault(operator: u8, kind: u8, value: &[u8], place: usize) -> Result<(), Refusal>
    ensures { result ≡ cond (eqb kind bundle_kind) (refuse Reason.BareBundle place) (kind_fault operator kind value.now place) }
{
    if kind == Kind::Bundle as u8 {
        return refuse(Reason::BareBundle, place);
    }
    kind_fault(operator, kind, value, place)
}

// The same at what the test's name is on the sheet.
pub fn fault_at(
    found: Option<Found>,
    operator: u8,
    value: &[u8],
    place: usize,
) -> Result<(), Refusal>
    ensures { result ≡ fault_at found operator value.now place }
{
    found.map_or(
        refuse(Reason::UnknownName, place),
        |found| parameter_fault(operator, found.kind, value, place),
    )
}

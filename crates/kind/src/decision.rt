// The one decision over operator and kind: document 01's table, a row for each kind.
ghost use Rattle.std.specs.Prelude.{◌≡◌};
ghost use Rattle.base.specs.Kinds.{kind_number};
ghost use Rattle.base.specs.Operators.{operator_number};
ghost use Rattle.kind.specs.Table.{string_row, number_row, date_row, token_row, reference_row, row, row_meaning, meaning_of};

use crate::{DateRelation, Meaning, NumberRelation, Relation, StringRelation};
use base::kind::Kind;
use base::operator::Operator;

// The row of strings.
#[tactic(auto, unfolding(crate::specs::Table::row_meaning, crate::specs::Table::relation_in, crate::specs::Table::string_row))]
fn string_meaning(operator: Operator) -> Meaning
    ensures { result ≡ row_meaning string_row (operator_number operator) }
{
    match operator {
        Operator::Eq => Meaning::Relates(Relation::Strings(StringRelation::Same)),
        Operator::Ne => Meaning::Differs(Relation::Strings(StringRelation::Same)),
        Operator::Co => Meaning::Relates(Relation::Strings(StringRelation::Contains)),
        Operator::Sw => Meaning::Relates(Relation::Strings(StringRelation::Starts)),
        Operator::Ew => Meaning::Relates(Relation::Strings(StringRelation::Ends)),
        _ => Meaning::Nothing,
    }
}

// The row of numbers.
#[tactic(auto, unfolding(crate::specs::Table::row_meaning, crate::specs::Table::relation_in, crate::specs::Table::number_row))]
fn number_meaning(operator: Operator) -> Meaning
    ensures { result ≡ row_meaning number_row (operator_number operator) }
{
    match operator {
        Operator::Eq => Meaning::Relates(Relation::Numbers(NumberRelation::Inside)),
        Operator::Ne => Meaning::Differs(Relation::Numbers(NumberRelation::Inside)),
        Operator::Co => Meaning::Relates(Relation::Numbers(NumberRelation::Covers)),
        Operator::Gt => Meaning::Relates(Relation::Numbers(NumberRelation::Greater)),
        Operator::Lt => Meaning::Relates(Relation::Numbers(NumberRelation::Less)),
        Operator::Ge => Meaning::Relates(Relation::Numbers(NumberRelation::AtLeast)),
        Operator::Le => Meaning::Relates(Relation::Numbers(NumberRelation::AtMost)),
        _ => Meaning::Nothing,
    }
}

// The row of dates, which periods have too.
#[tactic(auto, unfolding(crate::specs::Table::row_meaning, crate::specs::Table::relation_in, crate::specs::Table::date_row))]
fn date_meaning(operator: Operator) -> Meaning
    ensures { result ≡ row_meaning date_row (operator_number operator) }
{
    match operator {
        Operator::Eq => Meaning::Relates(Relation::Dates(DateRelation::Inside)),
        Operator::Ne => Meaning::Differs(Relation::Dates(DateRelation::Inside)),
        Operator::Co => Meaning::Relates(Relation::Dates(DateRelation::Covers)),
        Operator::Gt => Meaning::Relates(Relation::Dates(DateRelation::Later)),
        Operator::Lt => Meaning::Relates(Relation::Dates(DateRelation::Earlier)),
        Operator::Ge => Meaning::Relates(Relation::Dates(DateRelation::LaterOrInside)),
        Operator::Le => Meaning::Relates(Relation::Dates(DateRelation::EarlierOrInside)),
        Operator::Sa => Meaning::Relates(Relation::Dates(DateRelation::StartsAfter)),
        Operator::Eb => Meaning::Relates(Relation::Dates(DateRelation::EndsBefore)),
        Operator::Po => Meaning::Relates(Relation::Dates(DateRelation::Overlaps)),
        _ => Meaning::Nothing,
    }
}

// The row of tokens.
#[tactic(auto, unfolding(crate::specs::Table::row_meaning, crate::specs::Table::relation_in, crate::specs::Table::token_row))]
fn token_meaning(operator: Operator) -> Meaning
    ensures { result ≡ row_meaning token_row (operator_number operator) }
{
    match operator {
        Operator::Eq => Meaning::Relates(Relation::Tokens),
        Operator::Ne => Meaning::Differs(Relation::Tokens),
        _ => Meaning::Nothing,
    }
}

// The row of references.
#[tactic(auto, unfolding(crate::specs::Table::row_meaning, crate::specs::Table::relation_in, crate::specs::Table::reference_row))]
fn reference_meaning(operator: Operator) -> Meaning
    ensures { result ≡ row_meaning reference_row (operator_number operator) }
{
    match operator {
        Operator::Re => Meaning::Relates(Relation::References),
        _ => Meaning::Nothing,
    }
}

// What an operator other than pr means for a kind.
#[tactic(auto, using(crate::proofs::Table::no_row), unfolding(crate::specs::Table::row, crate::specs::Table::of_kind, crate::specs::Table::kinds))]
fn kind_meaning(operator: Operator, kind: Kind) -> Meaning
    ensures { result ≡ row_meaning (row (kind_number kind)) (operator_number operator) }
{
    match kind {
        Kind::String => string_meaning(operator),
        Kind::Number => number_meaning(operator),
        Kind::Date => date_meaning(operator),
        Kind::Token => token_meaning(operator),
        Kind::Reference => reference_meaning(operator),
        Kind::Period => date_meaning(operator),
        Kind::Bundle => Meaning::Nothing,
    }
}

// What an operator means for a kind, each by its number.
#[tactic(auto, using(crate::proofs::Table::no_operator, crate::proofs::Table::no_kind, crate::proofs::Table::present, crate::proofs::Table::of_row))]
pub fn meaning_of(operator: u8, kind: u8) -> Meaning
    ensures { result ≡ meaning_of operator kind }
{
    if operator == Operator::Pr as u8 {
        return Meaning::Present;
    }
    let Some(operator) = Operator::of(operator) else {
        return Meaning::Nothing;
    };
    let Some(kind) = Kind::of(kind) else {
        return Meaning::Nothing;
    };
    kind_meaning(operator, kind)
}

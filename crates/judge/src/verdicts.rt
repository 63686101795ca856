// What a test says of a card.
ghost use Rattle.std.specs.Prelude.{◌≡◌};
ghost use Rattle.card.specs.Card.{entries_of};
ghost use Rattle.judge.specs.Sets.{values_at, chosen_of};
ghost use Rattle.judge.specs.Verdicts.{some_says, says_of, says_at};

use crate::Chosen;
use crate::sets::some_counts;
use card::Card;
use kind::Meaning;
use sheet::Found;

// What a test with this meaning and value says of the texts under a parameter.
pub fn says_of(card: &Card<'_>, chosen: Chosen, index: u8, meaning: Meaning, value: &[u8]) -> bool
    ensures { result ≡ says_of meaning value.now (values_at index (chosen_of chosen (entries_of card.now))) }
{
    let some = some_counts(card, chosen, index, meaning, value);
    some_says(meaning, kind::is_true(value), some)
}

// What a test with this operator and value says of a well-formed card, at what its name is on the sheet.
pub fn says_at(
    found: Option<Found>,
    card: &Card<'_>,
    chosen: Chosen,
    operator: u8,
    value: &[u8],
) -> bool
    ensures { result ≡ says_at found operator value.now (chosen_of chosen (entries_of card.now)) }
{
    // no is_some_and: of a closure that captures a card nothing is known where it is called
    match found {
        Some(found) => says_of(
            card,
            chosen,
            found.index,
            kind::meaning_of(operator, found.kind),
            value,
        ),
        None => false,
    }
}

// What a test of this meaning says, where `some` says that some text counts: pr false asks that none does. Its value is true or not.
#[tactic(auto, unfolding(crate::specs::Verdicts::some_says))]
pub fn some_says(meaning: Meaning, truth: bool, some: bool) -> bool
    ensures { result ≡ some_says meaning truth some }
{
    match meaning {
        Meaning::Present => {
            if truth {
                return some;
            }
            !some
        }
        Meaning::Relates(_) => some,
        Meaning::Differs(_) => some,
        Meaning::Nothing => some,
    }
}

// The texts of a card: whether they conform to a sheet, and those under one parameter.
ghost use Rattle.std.specs.Prelude.{◌≡◌, ◌&&◌, get_or};
ghost use Rattle.card.specs.Card.{entries_of};
ghost use Rattle.kind.specs.Readable.{card_readable};
ghost use Rattle.judge.specs.Sets.{values_at, counts, chosen_of, conforms_to};
ghost use Rattle.judge.specs.Verdicts.{some_value, text_counts};

use crate::Chosen;
use crate::values::text_counts;
use card::Card;
use kind::Meaning;

// Whether the text of an entry is readable as the kind of its parameter.
fn entry_conforms(kinds: &[u8], index: u8, text: &[u8]) -> bool
    ensures { result ≡ card_readable (get_or kinds.now index 0) text.now }
{
    kinds
        .get(usize::from(index))
        .is_some_and(|kind| kind::card_readable(*kind, text))
}

// Whether a well-formed card conforms to a sheet with these kinds (01: fits).
pub fn conforms(kinds: &[u8], card: &Card<'_>) -> bool
    ensures { result ≡ conforms_to kinds.now (entries_of card.now) }
{
    card.entries().all(|e| entry_conforms(kinds, e.tag, e.text))
}

// Whether an entry of an occurrence counts, and stands under the parameter, where `same` says that it has its index.
pub fn is_under(chosen: Chosen, occurrence: u8, same: bool) -> bool
    ensures { result ≡ (counts chosen occurrence && same) }
{
    same && chosen.is_none_or(|own| occurrence == own)
}

// Whether some text under a parameter counts for a meaning and a value, among the entries that count.
pub fn some_counts(
    card: &Card<'_>,
    chosen: Chosen,
    index: u8,
    meaning: Meaning,
    value: &[u8],
) -> bool
    ensures { result ≡ some_value (text_counts meaning value.now) (values_at index (chosen_of chosen (entries_of card.now))) }
{
    card.entries().any(|e| is_under(chosen, e.mark, e.tag == index)
        && text_counts(meaning, value, e.text))
}

// Tests as they stand in the filter's text: a value without escapes is judged where it stands, one with escapes in a buffer.
ghost use Rattle.std.specs.Prelude.{◌≡◌};
ghost use Rattle.sheet.specs.Sheet.{parameters_of};
ghost use Rattle.card.specs.Card.{entries_of};
ghost use Rattle.syntax.specs.Tree.{moved};
ghost use Rattle.judge.specs.Faults.{test_fault};
ghost use Rattle.judge.specs.Verdicts.{text_counts, test_says};
ghost use Rattle.judge.specs.Sets.{lookup, chosen_of};
ghost use Rattle.kind.specs.Readable.{is_true};

use crate::Chosen;
use crate::faults::fault_at;
use crate::values::text_counts;
use crate::verdicts::says_at;
use card::Card;
use kind::Meaning;
use refusal::Refusal;
use sheet::{Found, Sheet};
use syntax::FilterTest;
use syntax::value::decode;

// The parameter that a test names, on a well-formed sheet, looked up in a bundle.
pub fn test_found(sheet: &Sheet<'_>, bundle: u8, test: &FilterTest<'_>) -> Option<Found>
    ensures { result ≡ lookup (parameters_of sheet.now) bundle test.now.path }
{
    sheet.find(bundle, test.name())
}

// What is decided of a test on a well-formed sheet; its place is given.
pub fn test_fault(
    sheet: &Sheet<'_>,
    bundle: u8,
    test: &FilterTest<'_>,
    place: usize,
) -> Result<(), Refusal>
    ensures { result ≡ test_fault (parameters_of sheet.now) bundle (moved place test.now) }
{
    let found = test_found(sheet, bundle, test);
    let operator = test.operator();
    test.of_value(|value| fault_at(found, operator, value, place))
}

// What a test says of a well-formed card.
pub fn test_says(
    sheet: &Sheet<'_>,
    bundle: u8,
    card: &Card<'_>,
    chosen: Chosen,
    test: &FilterTest<'_>,
) -> bool
    ensures { result ≡ test_says (parameters_of sheet.now) bundle (chosen_of chosen (entries_of card.now)) test.now }
{
    let found = test_found(sheet, bundle, test);
    let operator = test.operator();
    let value = test.value();
    // not by `of_value`: of a closure that captures a card nothing is known where it is called, clauses of its own or not
    if value.escaped {
        // fixed memory, for the longest value of the longest filter
        let mut bytes = [0u8; 1024];
        let n = decode(value.bytes, &mut bytes);
        return says_at(found, card, chosen, operator, &bytes[..n]);
    }
    says_at(found, card, chosen, operator, value.bytes)
}

// `text_counts` with the value of a test.
pub fn member_counts(test: &FilterTest<'_>, meaning: Meaning, text: &[u8]) -> bool
    ensures { result ≡ text_counts meaning test.now.value text.now }
{
    test.of_value(|value| text_counts(meaning, value, text))
}

// Whether the value of a test is true, case ignored.
pub fn member_truth(test: &FilterTest<'_>) -> bool
    ensures { result ≡ is_true test.now.value }
{
    test.of_value(|value| kind::is_true(value))
}

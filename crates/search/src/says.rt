// What a query says of a card: pairs, all to be met, each by some alternative.
ghost use Rattle.std.specs.Prelude.{◌≡◌, not, ◌&&◌, ◌||◌, length};
ghost use Rattle.token.specs.Match.{matches_at};
ghost use Rattle.sheet.specs.Sheet.{parameters_of};
ghost use Rattle.sheet.specs.Find.{find};
ghost use Rattle.card.specs.Card.{entries_of};
ghost use Rattle.judge.specs.Sets.{values_at};
ghost use Rattle.judge.specs.Verdicts.{some_value};
ghost use Rattle.search.specs.Meaning.{text_says, says_at, alternative_says};
ghost use Rattle.query.specs.Rows.{alternative_in, rows_say, RowWithin};

use crate::asked::asked_of;
use base::kind::Kind;
use card::Card;
use judge::Chosen;
use query::{KeptQuery, Row};
use sheet::Sheet;

// Whether some text under a parameter is a token that is asked for.
fn some_token(card: &Card<'_>, index: u8, split: usize, asked: &[u8]) -> bool
    ensures { result ≡ some_value (λ x. matches_at x split asked.now) (values_at index (entries_of card.now)) }
{
    card.entries().any(|e| e.tag == index && token::matches_at(e.text, split, asked))
}

// What a text says of the texts under a parameter of a kind.
fn text_says(card: &Card<'_>, index: u8, kind: u8, split: usize, text: &[u8]) -> bool
    ensures { result ≡ text_says kind split text.now (values_at index (entries_of card.now)) }
{
    if kind == Kind::Token as u8 {
        return some_token(card, index, split, text);
    }
    let asked = asked_of(kind, text);
    let skip = asked.skip;
    let every: Chosen = None;
    judge::says_of(
        card,
        every,
        index,
        kind::meaning_of(asked.operator, kind),
        &text[skip..],
    )
}

// What a text under a name says of a well-formed card.
fn says_at(sheet: &Sheet<'_>, card: &Card<'_>, name: &[u8], split: usize, text: &[u8]) -> bool
    ensures { result ≡ says_at (find 0 name.now (parameters_of sheet.now)) split text.now (entries_of card.now) }
{
    let Some(found) = sheet.find(0, name) else {
        return false;
    };
    text_says(card, found.index, found.kind, split, text)
}

// What the alternative that a row keeps says, or true where its pair is met already.
fn row_says(met: bool, sheet: &Sheet<'_>, card: &Card<'_>, bytes: &[u8], row: Row) -> bool
    requires row_within { RowWithin (length bytes.now) row }
    ensures { result ≡ (met || alternative_says (parameters_of sheet.now) (entries_of card.now) (alternative_in bytes.now row)) }
{
    if met {
        return true;
    }
    let name = row.name;
    let until = row.until;
    let text = row.text;
    let end = row.end;
    says_at(
        sheet,
        card,
        &bytes[name..until],
        row.split,
        &bytes[text..end],
    )
}

// Whether a pair that ends here is not met.
fn is_unmet(last: bool, said: bool) -> bool
    ensures { result ≡ (last && not said) }
{
    if last {
        return !said;
    }
    false
}

// What the alternatives so far have said of the pair that goes on, or of the next.
fn carried(last: bool, said: bool) -> bool
    ensures { result ≡ (not last && said) }
{
    if last {
        return false;
    }
    said
}

// What the query that rows keep says of a well-formed card.
pub fn rows_say(sheet: &Sheet<'_>, card: &Card<'_>, asked: KeptQuery<'_>) -> bool
    ensures { result ≡ rows_say (alternative_says (parameters_of sheet.now) (entries_of card.now)) asked.entry.bytes.now asked.entry.rows.now }
{
    let mut met = false;
    for row in &asked.rows.rows[..asked.rows.count] {
        let said = row_says(met, sheet, card, asked.bytes, *row);
        if is_unmet(row.last, said) {
            return false;
        }
        met = carried(row.last, said);
    }
    true
}

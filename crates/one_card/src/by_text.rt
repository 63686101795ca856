// The second engine: it walks the filter's text for each card, without rows, and decides as it reads. It is held against the first.
ghost use Rattle.std.specs.Prelude.{◌≡◌, ℕ};
ghost use Rattle.sheet.specs.Sheet.{parameters_of};
ghost use Rattle.sheet.specs.Find.{kinds_of};
ghost use Rattle.card.specs.Card.{entries_of};
ghost use Rattle.syntax.specs.Reader.{read};
ghost use Rattle.answer.specs.Passing.{Passing, text_says, text_question, card_verdict};
ghost use Rattle.one_card.specs.OneCard.{verdict_step};

use crate::accept_card;
use card::Card;
use filter::top;
use refusal::Reason;
use sheet::Sheet;
use syntax::FilterText;
use text_judge::AskedCard;

// What a filter that check has passed says of a well-formed card.
fn text_says(sheet: &Sheet<'_>, filter: &FilterText<'_>, card: &Card<'_>) -> bool
    requires passing { Passing sheet.now filter.now }
    ensures { result ≡ text_says (parameters_of sheet.now) (entries_of card.now) (read filter.now) }
{
    let asked = AskedCard {
        sheet,
        card,
        chosen: None,
        filter,
    };
    asked
        .judge_filter(true, top(filter.bytes))
        .is_some_and(|judged| judged.says)
}

// The verdict of a filter's text on a card, or why the card is refused; `kinds` are those of the sheet.
pub fn judge_by_text(
    sheet: &Sheet<'_>,
    kinds: &[u8],
    filter: &FilterText<'_>,
    card: &[u8],
) -> Result<bool, Reason>
    requires passing { Passing sheet.now filter.now }
    requires kinds_value { kinds.now ≡ kinds_of (parameters_of sheet.now) }
    ensures { (i : ℕ) → verdict_step result i ≡ card_verdict (text_question (parameters_of sheet.now) (read filter.now)) i card.now }
{
    let card = accept_card(kinds, card)?;
    Ok(text_says(sheet, filter, &card))
}

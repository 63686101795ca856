// One card under a sheet: whether it is accepted, what is said of it by either engine, and the answer that this makes.
#![tactic(auto)]

mod by_rows;
mod by_text;

ghost use Rattle.std.specs.Prelude.{◌≡◌, ℕ, Bool, Err};
ghost use Rattle.one_card.specs.OneCard.{ReadsBytes, AcceptsCard, verdict_answer};
ghost use Rattle.refusal.specs.Answers.{matched_answer, number_of};
ghost use Rattle.refusal.specs.Steps.{stop};
ghost use Rattle.answer.specs.Operations.{Card as Accepted, card_step};

use block::Flaw;
pub use by_rows::{judge_by_rows, judge_once};
pub use by_text::judge_by_text;
use card::Card;
use judge::conforms;
use refusal::{Reason, Refusal};

// What is told of bytes that are no card: 20, 21 and 22. For a sheet the same flaws have other numbers.
fn card_reason(flaw: Flaw) -> Reason
    ensures { (fits : Bool) (card : Accepted) (i : ℕ) → card_step (Err flaw) fits card i ≡ stop (number_of result) i }
{
    match flaw {
        Flaw::Size => Reason::CardSize,
        Flaw::Sum => Reason::CardSum,
        Flaw::Layout => Reason::CardLayout,
    }
}

// The card that any bytes are, or why it is none.
fn read_card(bytes: &[u8]) -> Result<Card<'_>, Reason>
    ensures { ReadsBytes bytes.now result }
{
    Card::read(bytes).map_err(card_reason)
}

// The card that any bytes are, where it conforms, or its refusal; `kinds` are those of the sheet.
pub fn accept_card<'a>(kinds: &[u8], bytes: &'a [u8]) -> Result<Card<'a>, Reason>
    ensures { AcceptsCard kinds.now bytes.now result }
{
    let card = read_card(bytes)?;
    let fits = conforms(kinds, &card);
    if !fits {
        return Err(Reason::CardMisfit);
    }
    Ok(card)
}

// The verdict on one card as match's answer.
pub fn answered(verdict: Result<bool, Reason>) -> Result<bool, Refusal>
    ensures { matched_answer result ≡ verdict_answer verdict }
{
    verdict.map_err(|reason| Refusal { reason, place: 0 })
}

// A card to be judged alone.
ghost use Rattle.std.specs.Prelude.{◌≡◌, true};
ghost use Rattle.card.specs.Card.{entries_of};
ghost use Rattle.judge.specs.Sets.{conforms_to};

use card::Card;
use syntax::FilterText;

// A card that conforms to a sheet with these kinds, and the text of a filter that is asked of it.
#[derive(Clone, Copy)]
pub struct FittingCard<'a> {
    pub kinds: &'a [u8; 32],
    pub filter: &'a FilterText<'a>,
    pub card: &'a Card<'a>,
    pub ghost conforms: { conforms_to kinds.now (entries_of card.now) ≡ true },
}

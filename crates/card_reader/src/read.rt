// A card that was read.
ghost use Rattle.card_reader.specs.Lists.{KeepsCard};
ghost use Rattle.card_reader.specs.Once.{KeepsCard_prop};

use crate::Kept;
use card::Card;

// A well-formed card and what is kept of it.
#[derive(Clone, Copy)]
pub struct ReadCard<'a> {
    pub card: &'a Card<'a>,
    pub kept: &'a Kept,
    pub ghost keeps: { KeepsCard card.now kept.now } by { KeepsCard_prop card.now kept.now },
}

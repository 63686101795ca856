// The runs of a file of cards: the totals over them, and a refusal's place among all their cards.
ghost use Rattle.std.specs.Prelude.{◌≤◌, ◌<◌, ◌≡◌};
ghost use Rattle.refusal.specs.Answers.{PlaceBound};
ghost use Rattle.listing.specs.Places.{place_in_file};
ghost use Rattle.listing.specs.Totals.{most_cards, Countable, Added};

use crate::Totals;

// The totals with a run of `size` bytes, of which `count` cards match. `Countable` stays a clause: the totals that this answers may be too
// many to add to, which the loop in pick tests.
pub fn add_run(totals: Totals, count: usize, size: usize) -> Totals
    requires countable { Countable totals }
    requires count_bound { count ≤ 128 }
    requires size_bound { size ≤ 65536 }
    ensures { Added totals count size result }
{
    Totals {
        matches: totals.matches + count as u64,
        cards: totals.cards + (size / 512) as u64,
    }
}

// A refusal's place in the file: a card's index, the place of 21 to 23, counts over the runs before as well.
#[tactic(auto, unfolding(crate::specs::Places::place_in_file))]
pub fn place_in_file(number: u32, place: usize, cards_before: u64) -> u64
    requires place_bound { PlaceBound number place }
    requires cards_before_lt_most_cards { cards_before < most_cards }
    ensures { result ≡ place_in_file number place cards_before }
{
    let place = place as u64;
    if number < 21 {
        return place;
    }
    if number > 23 {
        return place;
    }
    cards_before + place
}

// Judging a card by a filter's text. A test whose join is already decided is read and not judged: the verdict is the same, and
// that the test has a meaning was for check to say, before any card.
#![tactic(auto)]

ghost use Rattle.std.specs.Prelude.{◌≡◌, cond, not, ◌&&◌, ◌≤◌, ◌<◌, length};
ghost use Rattle.sheet.specs.Sheet.{parameters_of};
ghost use Rattle.card.specs.Card.{entries_of};
ghost use Rattle.syntax.specs.Reader.{item_at, filter_at, bracket_at, chosen_at};
ghost use Rattle.text_judge.specs.Folds.{judged, undecided, judging};
ghost use Rattle.judge.specs.Sets.{of_occurrence, chosen_of};
ghost use Rattle.judge.specs.Verdicts.{text_counts};
ghost use Rattle.text_judge.specs.Members.{parsed_says, judged_says, some_chosen, member_says};
ghost use Rattle.filter.specs.Walks.{answer_of};

use card::Card;
use filter::Spot;
use judge::{Chosen, is_under, member_counts, member_truth, some_says, test_found, test_says};
use kind::Meaning;
use sheet::Sheet;
use syntax::{Connective, FilterTest, FilterText, Head};

// What is asked: what a filter says of a card on a sheet, of those of the card's entries that count.
#[derive(Clone, Copy)]
pub struct AskedCard<'a> {
    pub sheet: &'a Sheet<'a>,
    pub card: &'a Card<'a>,
    pub chosen: Chosen,
    pub filter: &'a FilterText<'a>,
}

// Where a filter or an item that was judged ends, and what it says.
#[derive(Clone, Copy)]
pub struct Judged {
    pub end: usize,
    // no Option: what was judged says yes or no
    pub says: bool,
}

// The verdict, or after not the opposite.
fn negated_if(negate: bool, says: bool) -> bool
    ensures { result ≡ cond negate (not says) says }
{
    if negate {
        return !says;
    }
    says
}

// Whether what an item says after a connective is needed: after and where the filter says yes so far, after or where no.
fn item_needed(needed: bool, connective: Connective, says: bool) -> bool
    ensures { result ≡ (needed && undecided connective says) }
{
    match connective {
        Connective::And => needed && says,
        Connective::Or => needed && !says,
    }
}

// What the filter says after an item: what the item says where that is needed, and else what it said before.
fn after_item(needed: bool, says: bool, item: bool) -> bool
    ensures { result ≡ cond needed item says }
{
    if needed { item } else { says }
}

// What was judged says, and no where it is no filter.
fn judged_says(judged: Option<Judged>) -> bool
    ensures { result ≡ judged_says judged }
{
    judged.is_some_and(|judged| judged.says)
}

// Whether an entry's text counts for the test of a member: it is among those that count, stands under the parameter, and so on.
fn entry_counts(under: bool, test: &FilterTest<'_>, meaning: Meaning, text: &[u8]) -> bool
    ensures { result ≡ (under && text_counts meaning test.now.value text.now) }
{
    under && member_counts(test, meaning, text)
}

// That a spot is within the text is a clause, for `filter::Spot`'s reason.
impl<'a> AskedCard<'a> {
    // What a test says, where that is needed.
    #[tactic(auto, unfolding(crate::specs::Folds::judging))]
    fn test_verdict(&self, needed: bool, bundle: u8, test: &FilterTest<'_>) -> bool
        ensures { result ≡ (judging needed (parameters_of self.now.sheet.now) bundle (chosen_of self.now.chosen (entries_of self.now.card.now))).one test.now }
    {
        needed && test_says(self.sheet, bundle, self.card, self.chosen, test)
    }

    // Whether an entry counts and the filter in the brackets at a spot says yes of its occurrence.
    #[cycle(judging)]
    fn entry_chosen(&self, counts: bool, occurrence: u8, spot: Spot) -> bool
        requires { spot.at ≤ length self.now.filter.now }
        ensures { result ≡ (counts && parsed_says (parameters_of self.now.sheet.now) spot.bundle (of_occurrence occurrence (entries_of self.now.card.now))
            (filter_at spot.levels self.now.filter.now spot.close spot.at)) }
    {
        if counts {
            let chosen = Some(occurrence);
            let one = AskedCard { chosen, ..*self };
            return judged_says(one.judge_filter(true, spot));
        }
        false
    }

    // Whether some entry under a parameter counts for the test of a member, and the filter in the brackets at a spot says yes of its
    // occurrence.
    #[cycle(judging)]
    fn some_chosen(&self, spot: Spot, index: u8, meaning: Meaning, test: &FilterTest<'_>) -> bool
        requires { spot.at ≤ length self.now.filter.now }
        ensures { result ≡ some_chosen (parameters_of self.now.sheet.now) spot.bundle (entries_of self.now.card.now) self.now.chosen
            (filter_at spot.levels self.now.filter.now spot.close spot.at) index meaning test.now.value (entries_of self.now.card.now) }
    {
        for e in self.card.entries() {
            let under = is_under(self.chosen, e.mark, e.tag == index);
            let counts = entry_counts(under, test, meaning, e.text);
            if self.entry_chosen(counts, e.mark, spot) {
                return true;
            }
        }
        false
    }

    // What the test of a member after the brackets at a spot says.
    #[cycle(judging)]
    fn member_verdict(&self, needed: bool, spot: Spot, test: &FilterTest<'_>) -> bool
        requires { spot.at ≤ length self.now.filter.now }
        ensures { result ≡ (needed && member_says (parameters_of self.now.sheet.now) spot.bundle (entries_of self.now.card.now) self.now.chosen
            (filter_at spot.levels self.now.filter.now spot.close spot.at) test.now) }
    {
        if !needed {
            return false;
        }
        let Some(found) = test_found(self.sheet, spot.bundle, test) else {
            return false;
        };
        let meaning = kind::meaning_of(test.operator(), found.kind);
        let some = self.some_chosen(spot, found.index, meaning, test);
        some_says(meaning, member_truth(test), some)
    }

    // The filter in round brackets at a spot inside them, after not where `negate` says so.
    #[cycle(judging)]
    fn judge_round(&self, needed: bool, negate: bool, spot: Spot) -> Option<Judged>
        requires { spot.at ≤ length self.now.filter.now }
        ensures { result ≡ answer_of judged (judging needed (parameters_of self.now.sheet.now) spot.bundle (chosen_of self.now.chosen (entries_of self.now.card.now)))
            (bracket_at spot.levels self.now.filter.now negate spot.at) }
    {
        let inside = Spot {
            close: b')',
            ..spot
        };
        let inner = self.judge_filter(needed, inside)?;
        Some(Judged {
            end: self.filter.read_close(b')', inner.end)?,
            says: negated_if(negate, inner.says),
        })
    }

    // The test of a member at a spot, after the filter in square brackets of the bundle whose name ends at `until`; the levels are those
    // in the brackets.
    #[cycle(judging)]
    fn judge_chosen(&self, needed: bool, spot: Spot, until: usize) -> Option<Judged>
        requires at_le_until { spot.at ≤ until }
        requires until_in_bounds { until < length self.now.filter.now }
        ensures { result ≡ answer_of judged (judging needed (parameters_of self.now.sheet.now) spot.bundle (chosen_of self.now.chosen (entries_of self.now.card.now)))
            (chosen_at spot.levels self.now.filter.now spot.close spot.at until) }
    {
        let filter = self.filter;
        let bundle = self.sheet.enter(spot.bundle, filter.part(spot.at, until));
        let inside = Spot {
            at: filter.skip_after(until),
            levels: spot.levels,
            close: b']',
            bundle,
        };
        // only where the brackets end is asked: their filter is judged for each entry
        let inner = self.judge_filter(false, inside)?;
        let raw = filter.read_member(spot.close, inner.end)?;
        let test = FilterTest { text: filter, raw };
        Some(Judged {
            end: raw.value.next,
            says: self.member_verdict(needed, inside, &test),
        })
    }

    // The item at a spot.
    #[cycle(judging)]
    fn judge_item(&self, needed: bool, spot: Spot) -> Option<Judged>
        requires { spot.at ≤ length self.now.filter.now }
        ensures { result ≡ answer_of judged (judging needed (parameters_of self.now.sheet.now) spot.bundle (chosen_of self.now.chosen (entries_of self.now.card.now)))
            (item_at spot.levels self.now.filter.now spot.close spot.at) }
    {
        let filter = self.filter;
        let levels = spot.levels;
        let head = filter.read_head(spot.close, spot.at)?;
        match head {
            Head::Test(raw) => {
                let test = FilterTest { text: filter, raw };
                Some(Judged {
                    end: raw.value.next,
                    says: self.test_verdict(needed, spot.bundle, &test),
                })
            }
            Head::Open(next, negate) => {
                if levels == 0 {
                    return None;
                }
                let inside = Spot {
                    at: next,
                    levels: levels - 1,
                    ..spot
                };
                self.judge_round(needed, negate, inside)
            }
            Head::Choice(until) => {
                if levels == 0 {
                    return None;
                }
                let member = Spot {
                    levels: levels - 1,
                    ..spot
                };
                self.judge_chosen(needed, member, until)
            }
        }
    }

    // The filter at a spot, its items joined from left to right, and and or equal in rank. Where what it says is not needed, no test is
    // judged, and only where the filter ends is told.
    #[cycle(judging)]
    pub fn judge_filter(&self, needed: bool, spot: Spot) -> Option<Judged>
        requires { spot.at ≤ length self.now.filter.now }
        ensures { result ≡ answer_of judged (judging needed (parameters_of self.now.sheet.now) spot.bundle (chosen_of self.now.chosen (entries_of self.now.card.now)))
            (filter_at spot.levels self.now.filter.now spot.close spot.at) }
    {
        let mut judged = self.judge_item(needed, spot)?;
        // no for: where the next item begins is known when the one before it was read
        while let Some(link) = self.filter.read_connective(judged.end) {
            let asked = item_needed(needed, link.connective, judged.says);
            let next = Spot {
                at: link.next,
                ..spot
            };
            let item = self.judge_item(asked, next)?;
            judged = Judged {
                end: item.end,
                says: after_item(asked, judged.says, item.says),
            };
        }
        Some(judged)
    }
}

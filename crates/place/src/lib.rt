// Where a text stops being the beginning of a filter, and why. The text is gone over byte by byte, for as long as some filter
// within both limits begins with the bytes so far.
#![tactic(auto, using(crate::proofs::Choices::choices))]

mod step;

ghost use Rattle.std.specs.Prelude.{◌≡◌};
ghost use Rattle.syntax.specs.Grammar.{deepest, most_tests};
ghost use Rattle.place.specs.Machine.{failure, found};
ghost use Rattle.place.specs.Code.{item_over, over};

use refusal::{Reason, Refusal};
use step::advance;

// What the bytes so far end in.
// No Option or Result: each arm is a state in which the text may go on.
#[derive(Clone, Copy)]
pub enum Mode {
    // An item may begin, after spaces.
    Item,
    // In a name, or in not, that begins at the position.
    Name(usize),
    // After not and a space: only a bracket may come.
    AfterNot,
    // After a name and a space.
    AfterName,
    // After an operator's first letter.
    Letter(u8),
    AfterOperator,
    // After an operator and a space.
    Value,
    Bare,
    // In a string; true behind a backslash.
    Quoted(bool),
    // A string or a round bracket has closed.
    AfterItem,
    // After an item and a space.
    AfterSpace,
    // In a connective, after a, an, o; before the space that it wants.
    AfterA,
    AfterAn,
    AfterO,
    WantsSpace,
    // A square bracket has closed.
    AfterSquare,
    // After its dot, and in the member's name, which begins at the position.
    Member,
    MemberName(usize),
}

// A mode; the open brackets, as the binary digits behind a leading 1, the outermost first, 0 for a round one and 1 for a square
// one; and the tests begun or due.
#[derive(Clone, Copy)]
pub struct Reached {
    pub mode: Mode,
    pub brackets: usize,
    pub tests: usize,
}

// Whether an item has ended, perhaps with a space.
fn item_over(mode: Mode) -> bool
    ensures { result ≡ item_over mode }
{
    matches!(mode, Mode::Bare | Mode::AfterItem | Mode::AfterSpace)
}

// Whether a filter may end there: an item has ended, and no bracket is open.
#[tactic(auto, unfolding(crate::specs::Code::over))]
fn is_over(reached: Reached) -> bool
    ensures { result ≡ over reached }
{
    item_over(reached.mode) && reached.brackets == 1
}

// Whether a text is a filter, or where it stops being the beginning of one.
pub fn find(s: &[u8]) -> Result<(), Refusal>
    ensures { result ≡ found deepest most_tests s.now }
{
    let mut reached = Reached {
        mode: Mode::Item,
        brackets: 1,
        tests: 1,
    };
    for at in 0..s.len() {
        reached = advance(s, at, reached).map_err(move |reason| Refusal { reason, place: at })?;
    }
    if is_over(reached) {
        return Ok(());
    }
    Err(Refusal {
        reason: Reason::NoFilter,
        place: s.len(),
    })
}

// Where a text that is no filter stops being the beginning of one.
#[tactic(auto, using(crate::proofs::Stepping::failure_filter, crate::proofs::Stepping::failure_failed))]
pub fn find_failure(s: &[u8]) -> Refusal
    ensures { result ≡ failure deepest most_tests s.now }
{
    find(s).err().unwrap_or(Refusal {
        reason: Reason::NoFilter,
        place: s.len(),
    })
}

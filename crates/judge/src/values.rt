// A filter's value that is read once for many texts.
ghost use Rattle.std.specs.Prelude.{◌≡◌};
ghost use Rattle.kind.specs.Relations.{Kept};
ghost use Rattle.judge.specs.Once.{readings_for, counts_read};
ghost use Rattle.judge.specs.Verdicts.{text_counts};

use kind::{Meaning, Readings};

// What a value reads to for a meaning.
#[tactic(auto, unfolding(crate::specs::Once::readings_for))]
pub fn readings_for(meaning: Meaning, value: &[u8]) -> Readings
    ensures { result ≡ readings_for meaning value.now }
{
    match meaning {
        Meaning::Present => kind::unread(),
        Meaning::Relates(relation) => kind::readings_of(relation, value),
        Meaning::Differs(relation) => kind::readings_of(relation, value),
        Meaning::Nothing => kind::unread(),
    }
}

// Whether a text counts for a meaning and a value that was read.
#[tactic(auto, unfolding(crate::specs::Once::counts_read))]
pub fn counts_read(meaning: Meaning, value: &[u8], readings: Readings, text: &[u8]) -> bool
    requires { Kept readings.number }
    ensures { result ≡ counts_read meaning value.now readings text.now }
{
    match meaning {
        Meaning::Present => true,
        Meaning::Relates(relation) => kind::relates_read(relation, text, value, readings),
        Meaning::Differs(relation) => !kind::relates_read(relation, text, value, readings),
        Meaning::Nothing => false,
    }
}

// Whether a text counts for a meaning and a value: for pr each does. The value is read only now, when there is a text to
// compare.
pub fn text_counts(meaning: Meaning, value: &[u8], text: &[u8]) -> bool
    ensures { result ≡ text_counts meaning value.now text.now }
{
    counts_read(meaning, value, readings_for(meaning, value), text)
}

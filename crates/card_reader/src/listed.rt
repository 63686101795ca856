// A test judged by what is kept of a card: only the entries under its parameter are visited.
ghost use Rattle.std.specs.Prelude.{◌≡◌, ◌<◌, get_or};
ghost use Rattle.card.specs.Card.{entries_of};
ghost use Rattle.judge.specs.Once.{readings_for};
ghost use Rattle.judge.specs.Sets.{values_at, chosen_of, counts};
ghost use Rattle.judge.specs.Verdicts.{some_value, text_counts};
ghost use Rattle.card_reader.specs.Lists.{no_entry, none_kept, Holds, IsKept, KeepsCard};
ghost use Rattle.card_reader.specs.Listed.{entry_counts, counted, OnChain, FirstFrom};

use crate::related::reading_counts;
use crate::{Kept, Question, ReadCard};
use judge::Chosen;

// Whether entries of an occurrence count. judge's is_under asks besides whether an entry stands under a parameter, which a chain has settled.
fn is_chosen(chosen: Chosen, occurrence: u8) -> bool
    ensures { result ≡ counts chosen occurrence }
{
    chosen.is_none_or(|own| occurrence == own)
}

// Whether the entry e counts for a test.
fn entry_counts(read: ReadCard<'_>, e: usize, chosen: Chosen, question: Question<'_>) -> bool
    requires e_bound { e < 64 }
    requires holds { Holds read.card.now (get_or read.kept.now.entries e none_kept) (get_or (entries_of read.card.now) e no_entry) }
    ensures { result ≡ entry_counts chosen question.entry.meaning question.entry.value.now (get_or (entries_of read.entry.card.now) e no_entry) }
{
    let card = read.card;
    let entry = read.kept.entries[e];
    if !is_chosen(chosen, entry.occurrence) {
        return false;
    }
    let start = usize::from(entry.start);
    let end = usize::from(entry.end);
    reading_counts(
        question.meaning,
        &card.bytes[start..end],
        entry.reading,
        question.value,
        question.readings,
    )
}

// The first entry of a chain from `from` on that counts, if there is one. A chain goes from the last entry to the first.
pub fn next_counting(
    read: ReadCard<'_>,
    chosen: Chosen,
    question: Question<'_>,
    from: Option<usize>,
) -> Option<usize>
    requires { OnChain read.card.now read.kept.now question.index (counted from) }
    ensures { FirstFrom (entry_counts chosen question.entry.meaning question.entry.value.now) read.entry.card.now read.entry.kept.now question.entry.index (counted from) (counted result) }
{
    let mut next = from;
    // no for: which entry is next is kept with the one before it
    while let Some(e) = next {
        if entry_counts(read, e, chosen, question) {
            return next;
        }
        next = chain_behind(read.kept, e);
    }
    None
}

// The entry whose number, counted from 1, is kept, or none for 0.
fn entry_of(kept: u8) -> Option<usize>
    ensures { counted result ≡ kept }
{
    usize::from(kept).checked_sub(1)
}

// Where the chain of a parameter begins: at its last entry, if it has one. Its index stays a number with a bound, as a row's probe has it.
pub fn chain_of(kept: &Kept, index: u8) -> Option<usize>
    requires index_bound { index < 32 }
    ensures { counted result ≡ get_or kept.now.last index 0 }
{
    entry_of(kept.last[usize::from(index)])
}

// Where it goes on behind the entry e, if it does.
pub fn chain_behind(kept: &Kept, e: usize) -> Option<usize>
    requires e_bound { e < 64 }
    ensures { counted result ≡ (get_or kept.now.entries e none_kept).behind }
{
    entry_of(kept.entries[e].behind)
}

// The occurrence of the entry e.
pub fn occurrence_of(kept: &Kept, e: usize) -> u8
    requires e_bound { e < 64 }
    ensures { result ≡ (get_or kept.now.entries e none_kept).occurrence }
{
    kept.entries[e].occurrence
}

// Whether some text under a parameter whose entries are kept counts for a test, among the entries that count.
pub fn some_kept(read: ReadCard<'_>, chosen: Chosen, question: Question<'_>) -> bool
    requires { IsKept read.kept.now question.index }
    ensures { result ≡ some_value (text_counts question.entry.meaning question.entry.value.now) (values_at question.entry.index (chosen_of chosen (entries_of read.entry.card.now))) }
{
    let from = chain_of(read.kept, question.index);
    next_counting(read, chosen, question, from).is_some()
}

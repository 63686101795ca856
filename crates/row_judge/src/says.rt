// What rows that were opened say of a card. They are read from left to right with one verdict in hand: a test sets it, not turns it round,
// and a join whose first part decides it leaves the rows of its second part out; else the second part's verdict is the join's. The rows in
// a test's brackets are judged for each occurrence by itself. The card was read: a test goes along the entries of its own parameter.
ghost use Rattle.std.specs.Prelude.{◌≡◌, true, ◌<◌};
ghost use Rattle.card.specs.Card.{entries_of};
ghost use Rattle.judge.specs.Sets.{chosen_of};
ghost use Rattle.card_reader.specs.Lists.{IsKept};
ghost use Rattle.card_reader.specs.Listed.{counted, entry_counts, OnChain, FirstFrom};
ghost use Rattle.row_judge.specs.Asking.{LentFor};
ghost use Rattle.row_judge.specs.Saying.{probe_says, rows_say, Bracketed, skipped, bracket_says};
ghost use Rattle.row_opener.specs.Opening.{value_of, opened_for};

use crate::asked::Asked;
use crate::{OpenedRows, StatedRows};
use card_reader::{
    Question, ReadCard, chain_behind, chain_of, kind_at, next_counting, occurrence_of,
};
use judge::{Chosen, some_says};
use row_opener::{Opened, readings_in};
use rows::{Probe, Row, probe_of, row_of};
use syntax::value::decode;
use syntax::{Connective, FilterText};

// How many rows of a join's second part are left out: all where the verdict of the first decides.
fn skipped(connective: Connective, first: bool, size: usize) -> usize
    ensures { result ≡ skipped connective first size }
{
    match connective {
        Connective::And => {
            if first {
                return 0;
            }
            size
        }
        Connective::Or => {
            if first {
                return size;
            }
            0
        }
    }
}

// The first entry of a chain that counts for a value that has escapes. Its buffer takes time to clear, so that it is in a function of its own.
fn next_escaped(
    asked: Asked<'_>,
    read: ReadCard<'_>,
    chosen: Chosen,
    from: Option<usize>,
) -> Option<usize>
    requires escaped { asked.opened.now.escaped ≡ true }
    requires on_chain { OnChain read.card.now read.kept.now asked.index (counted from) }
    ensures { FirstFrom (entry_counts chosen asked.entry.meaning (value_of asked.entry.filter.now asked.entry.opened.now)) read.entry.card.now
        read.entry.kept.now asked.entry.index (counted from) (counted result) }
{
    let opened = asked.opened;
    let raw = asked
        .filter
        .part(usize::from(opened.start), usize::from(opened.end));
    // fixed memory, for the longest value of the longest filter
    let mut value = [0u8; 1024];
    let n = decode(raw, &mut value);
    let question = Question {
        index: asked.index,
        meaning: asked.meaning,
        value: &value[..n],
        readings: readings_in(opened.reading),
    };
    next_counting(read, chosen, question, from)
}

// The first entry of a chain that counts for a test.
fn next_text(
    asked: Asked<'_>,
    read: ReadCard<'_>,
    chosen: Chosen,
    from: Option<usize>,
) -> Option<usize>
    requires { OnChain read.card.now read.kept.now asked.index (counted from) }
    ensures { FirstFrom (entry_counts chosen asked.entry.meaning (value_of asked.entry.filter.now asked.entry.opened.now)) read.entry.card.now
        read.entry.kept.now asked.entry.index (counted from) (counted result) }
{
    let opened = asked.opened;
    if opened.escaped {
        return next_escaped(asked, read, chosen, from);
    }
    let question = Question {
        index: asked.index,
        meaning: asked.meaning,
        value: asked
            .filter
            .part(usize::from(opened.start), usize::from(opened.end)),
        readings: readings_in(opened.reading),
    };
    next_counting(read, chosen, question, from)
}

// What a test without brackets says of the entries that count.
fn plain_says(
    filter: &FilterText<'_>,
    probe: Probe,
    value: &Option<Opened>,
    read: ReadCard<'_>,
    chosen: Chosen,
) -> bool
    requires index_bound { probe.index < 32 }
    requires is_kept { IsKept read.kept.now probe.index }
    requires opened_value { value.now ≡ opened_for read.kept.now.kinds filter.now probe }
    ensures { result ≡ probe_says read.entry.kept.now.kinds filter.now probe (chosen_of chosen (entries_of read.entry.card.now)) }
{
    let Some(opened) = value else {
        return false;
    };
    let index = probe.index;
    let meaning = kind::meaning_of(probe.operator, kind_at(read.kept, index));
    let asked = Asked {
        filter,
        index,
        meaning,
        opened,
    };
    let from = chain_of(read.kept, index);
    let first = next_text(asked, read, chosen, from);
    some_says(meaning, opened.truth, first.is_some())
}

// Rows and values are handed on beside each other, and not as `OpenedRows`: the first row is a test's, and they state no expression with it.

// What a test after brackets says of the entries that count: its row, and those in its brackets behind it. Some entry must count, and the rows
// in the brackets say yes of its occurrence.
#[cycle(saying)]
fn bracket_says(
    filter: &FilterText<'_>,
    rows: &[u32],
    values: &[Option<Opened>],
    read: ReadCard<'_>,
    chosen: Chosen,
) -> bool
    requires { Bracketed filter.now rows.now values.now read.kept.now }
    ensures { result ≡ bracket_says read.entry.kept.now.kinds filter.now rows.now chosen (entries_of read.entry.card.now) }
{
    let Some(opened) = &values[0] else {
        return false;
    };
    let probe = probe_of(rows[0] / 8);
    let index = probe.index;
    let meaning = kind::meaning_of(probe.operator, kind_at(read.kept, index));
    let asked = Asked {
        filter: &*filter,
        index,
        meaning,
        opened,
    };
    let inner = OpenedRows {
        kinds: &read.kept.kinds,
        filter: &*filter,
        rows: &StatedRows { cells: &rows[1..] },
        values: &values[1..],
    };
    let mut next = next_text(asked, read, chosen, chain_of(read.kept, index));
    // no for: which entry is next is kept with the one before it
    while let Some(e) = next {
        let own = Some(occurrence_of(read.kept, e));
        if rows_say(&inner, read, own) {
            return some_says(meaning, opened.truth, true);
        }
        next = next_text(asked, read, chosen, chain_behind(read.kept, e));
    }
    some_says(meaning, opened.truth, false)
}

// What rows that were opened say of the entries of a card that count; of the card the entries are kept that the rows ask about.
#[cycle(saying)]
pub fn rows_say(opened: &OpenedRows<'_>, read: ReadCard<'_>, chosen: Chosen) -> bool
    requires { LentFor opened.now.kinds.now opened.now.rows.now read.kept.now }
    ensures { result ≡ rows_say opened.now.kinds.now opened.now.filter.now (chosen_of chosen (entries_of read.entry.card.now)) opened.now.rows.now }
{
    let filter = opened.filter;
    let rows = opened.rows;
    let cells = rows.cells;
    let values = opened.values;
    let mut at = 0;
    let mut verdict = false;
    // no for: the rows of a second part are passed over at once
    while at < cells.len() {
        match row_of(cells[at]) {
            Row::Test(probe) => {
                verdict = plain_says(filter, probe, &values[at], read, chosen);
                at += 1;
            }
            Row::Bracket(size) => {
                let first = at + 1;
                let end = first + size + 1;
                verdict = bracket_says(filter, &cells[first..end], &values[first..], read, chosen);
                at = end;
            }
            Row::Not => {
                verdict = !verdict;
                at += 1;
            }
            Row::Connect(connective, size) => {
                at = at + 1 + skipped(connective, verdict, size);
            }
            Row::Unknown => {
                return false;
            }
        }
    }
    verdict
}

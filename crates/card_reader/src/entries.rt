// One pass over a card's entries.
ghost use Rattle.std.specs.Prelude.{◌+◌, ◌<◌, ◌≤◌, length};
ghost use Rattle.base.specs.Kinds.{number, date, period};
ghost use Rattle.card_reader.specs.Lists.{ReadsCard};
ghost use Rattle.card_reader.specs.Storing.{Begun, TakesAs, Takes};

use crate::store::{NumberedItem, store_entry};
use crate::{Kept, TextReading};
use base::kind::Kind;
use block::Item;
use card::Card;

// Has no entry of a card.
fn begin(kept: &mut Kept)
    ensures { Begun kept.old kept.new }
{
    kept.last = [0; 32];
}

// The functions below answer whether a text was readable, as card_readable does, and keep the entry where it was readable. Each stores what it
// has read itself: a reading that is handed on as an Option of the enum goes through memory, and took 2 to 5 in 100 more instructions a card.

// Keeps an entry whose text is a number.
fn take_number(kept: &mut Kept, entry: NumberedItem<'_>) -> bool
    ensures { TakesAs number entry.entry.number entry.entry.item kept.old kept.new result }
{
    let Some(n) = number::read(entry.item.text) else {
        return false;
    };
    store_entry(kept, entry, TextReading::Number(n));
    true
}

// Keeps an entry whose text is a date.
fn take_date(kept: &mut Kept, entry: NumberedItem<'_>) -> bool
    ensures { TakesAs date entry.entry.number entry.entry.item kept.old kept.new result }
{
    let Some(d) = date::read(entry.item.text) else {
        return false;
    };
    store_entry(kept, entry, TextReading::Span(period::known(d)));
    true
}

// Keeps an entry whose text is a period.
fn take_period(kept: &mut Kept, entry: NumberedItem<'_>) -> bool
    ensures { TakesAs period entry.entry.number entry.entry.item kept.old kept.new result }
{
    let Some(p) = period::read(entry.item.text) else {
        return false;
    };
    store_entry(kept, entry, TextReading::Span(p));
    true
}

// Keeps an entry by the bytes of its text, which is of any kind.
fn take_bytes(kind: u8, kept: &mut Kept, entry: NumberedItem<'_>) -> bool
    ensures { TakesAs kind entry.entry.number entry.entry.item kept.old kept.new result }
{
    if !kind::card_readable(kind, entry.item.text) {
        return false;
    }
    store_entry(kept, entry, TextReading::Bytes);
    true
}

// Whether the text of an entry is readable as its parameter's kind; where it is, keeps it as the entry e, if entries of the parameter are kept.
fn take_entry(kinds: &[u8; 32], kept: &mut Kept, e: usize, item: Item<'_>) -> bool
    requires e_bound { e < 64 }
    requires end_bound { item.start + length item.text.now ≤ 508 }
    ensures { Takes kinds.now e item.entry kept.old kept.new result }
{
    let i = usize::from(item.tag);
    if i >= 32 {
        return false;
    }
    let kind = kinds[i];
    if !kept.asked[i] {
        return kind::card_readable(kind, item.text);
    }
    let entry = NumberedItem { number: e, item };
    match Kind::of(kind) {
        Some(Kind::Number) => take_number(kept, entry),
        Some(Kind::Date) => take_date(kept, entry),
        Some(Kind::Period) => take_period(kept, entry),
        _ => take_bytes(kind, kept, entry),
    }
}

// Whether a well-formed card conforms to a sheet with these kinds; where it does, its entries are kept.
pub fn read_entries(kinds: &[u8; 32], card: &Card<'_>, kept: &mut Kept) -> bool
    ensures { ReadsCard kinds.now card.now kept.old kept.new result }
{
    begin(kept);
    for (e, item) in card.entries().enumerate() {
        if !take_entry(kinds, kept, e, item) {
            return false;
        }
    }
    true
}

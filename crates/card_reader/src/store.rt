// How an entry is kept.
ghost use Rattle.std.specs.Prelude.{◌+◌, ◌<◌, ◌≤◌, length};
ghost use Rattle.card_reader.specs.Storing.{Stored};

use crate::{Kept, KeptEntry, TextReading};
use block::Item;

// An entry that is to be kept: its number on the card, from 0 on, and its item. Its tag is an index that a sheet can have, and its text ends before the check sum.
#[derive(Clone, Copy)]
pub struct NumberedItem<'a> {
    pub number: usize,
    pub item: Item<'a>,
    ghost few: { number < 64 },
    ghost low: { item.tag < 32 },
    ghost within: { item.start + length item.text.now ≤ 508 },
}

// Keeps an entry, before the others under its parameter, with what its text reads to.
pub fn store_entry(kept: &mut Kept, entry: NumberedItem<'_>, reading: TextReading)
    ensures { Stored entry.entry.number entry.entry.item reading kept.old kept.new }
{
    let item = entry.item;
    let i = usize::from(item.tag);
    let end = item.start + item.text.len();
    kept.entries[entry.number] = KeptEntry {
        behind: kept.last[i],
        occurrence: item.mark,
        start: item.start as u16,
        end: end as u16,
        reading,
    };
    kept.last[i] = (entry.number + 1) as u8;
}

// What is kept, as it is lent for a run.
ghost use Rattle.std.specs.Prelude.{◌≡◌, ◌<◌, get_or};
ghost use Rattle.card_reader.specs.Lending.{Lends, Keeps};

use crate::{Kept, KeptEntry, TextReading};

// For a run over cards of a sheet with these kinds: nothing is kept of any entry.
pub fn lend(kinds: &[u8; 32]) -> Kept
    ensures { Lends kinds.now result }
{
    let none = KeptEntry {
        behind: 0,
        occurrence: 0,
        start: 0,
        end: 0,
        reading: TextReading::Bytes,
    };
    Kept {
        kinds: *kinds,
        asked: [false; 32],
        last: [0; 32],
        entries: [none; 64],
    }
}

// That an index is below 32, and in `entries` and `listed` a number below 64, is a clause: a number below the size of an array, opened at one use.

// Has the entries of a parameter kept from the next card on.
pub fn keep(kept: &mut Kept, index: u8)
    requires index_bound { index < 32 }
    ensures { Keeps index kept.old kept.new }
{
    kept.asked[usize::from(index)] = true;
}

// The kind of a parameter.
pub fn kind_at(kept: &Kept, index: u8) -> u8
    requires index_bound { index < 32 }
    ensures { result ≡ get_or kept.now.kinds index 0 }
{
    kept.kinds[usize::from(index)]
}

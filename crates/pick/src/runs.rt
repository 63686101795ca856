// The runs of a file of cards: up to 128 at a time are selected from, and their numbers printed.
ghost use Rattle.std.specs.Prelude.{◌≤◌, ◌≡◌, length};
ghost use Rattle.base.specs.Writing.{Room};
ghost use Rattle.listing.specs.Totals.{Countable};
ghost use Rattle.pick.specs.Bounds.{RunAdds, FullRunAdded};
ghost use Rattle.pick.specs.Runs.{last_line, EndPut, ListedPut, RunPut};

use crate::files::fill;
use crate::printing::{print, print_failure};
use listing::{Totals, add_run, place_in_file, put_count, put_lines, put_refusal};
use sirophan::select;
use std::io::Read;

// The bytes of 128 cards. A run of fewer is the last, and may have none.
const FULL_RUN: usize = 65536;

// No file has so many cards: its size would be 2^63 bytes.
const MOST_CARDS: u64 = 1 << 54;

// What a run's text takes of a buffer, and the totals with the run where the output goes on.
#[derive(Clone, Copy)]
struct RunText {
    size: usize,
    turn: Option<Totals>,
}

// Puts the count behind the last run, where the totals are those with it; behind a full run the output goes on.
#[tactic(auto, unfolding(crate::specs::Runs::last_line))]
fn end_run(totals: Totals, bytes: usize, out: &mut [u8]) -> RunText
    requires { Room (last_line bytes totals.matches totals.cards) out.old }
    ensures { EndPut totals bytes out.old out.new result }
{
    if bytes < FULL_RUN {
        return RunText {
            size: put_count(totals.matches, totals.cards, out),
            turn: None,
        };
    }
    RunText {
        size: 0,
        turn: Some(totals),
    }
}

// Puts numbers, each on a line, and what ends the run.
fn put_listed(numbers: &[u32], totals: Totals, bytes: usize, out: &mut [u8]) -> RunText
    requires numbers_len_bound { length numbers.now ≤ 128 }
    requires in_bounds { 2752 ≤ length out.old }
    ensures { ListedPut numbers.now totals bytes out.old out.new result }
{
    let size = put_lines(numbers, out);
    let end = end_run(totals, bytes, &mut out[size..]);
    let turn = end.turn;
    RunText {
        size: size + end.size,
        turn,
    }
}

// Puts what a run says: the record numbers of its cards that match and, behind the last run, the count; or a refusal.
fn put_run(sheet: &[u8], filter: &[u8], cards: &[u8], totals: Totals, out: &mut [u8]) -> RunText
    requires countable { Countable totals }
    requires cards_len_bound { length cards.now ≤ 65536 }
    requires in_bounds { 2752 ≤ length out.old }
    ensures { RunPut sheet.now filter.now cards.now totals out.old out.new result }
{
    let mut list = [0u32; 128];
    let selected = select(sheet, filter, cards, &mut list);
    match selected {
        Ok(count) => {
            let more = add_run(totals, count, cards.len());
            put_listed(&list[0..count], more, cards.len(), out)
        }
        Err(refusal) => {
            let number = u32::from(refusal.reason);
            let place = place_in_file(number, refusal.place, totals.cards);
            let size = put_refusal(u64::from(number), place, out);
            RunText { size, turn: None }
        }
    }
}

// Prints what a run says, and answers the totals with it where the output goes on; it ends, too, where that cannot be written. Each of 128 lines has at most 21 bytes, the count 64.
fn print_run(
    rt: &(impl Print + Eprint),
    sheet: &[u8],
    filter: &[u8],
    cards: &[u8],
    totals: Totals,
) -> Option<Totals>
    requires countable { Countable totals }
    requires cards_len_bound { length cards.now ≤ 65536 }
    ensures { RunAdds sheet.now filter.now cards.now totals result }
{
    let mut buffer = [0u8; 2752];
    let run = put_run(sheet, filter, cards, totals, &mut buffer);
    let size = run.size;
    if !print(rt, &buffer[0..size]) {
        return None;
    }
    run.turn
}

// Reads the next run and prints what it says.
fn next_run<R: Read>(
    rt: &(impl Print + Eprint),
    sheet: &[u8],
    filter: &[u8],
    file: &mut R,
    buffer: &mut [u8],
    totals: Totals,
) -> Option<Totals>
    requires buffer_len { length buffer.old ≡ 65536 }
    requires countable { Countable totals }
    ensures { FullRunAdded totals result }
{
    let Some(size) = fill(file, buffer) else {
        print_failure(rt, b"cards.bin", b"read");
        return None;
    };
    print_run(rt, sheet, filter, &buffer[0..size], totals)
}

// Prints that there are more cards than can be counted.
fn print_too_many(rt: &(impl Print + Eprint)) {
    print_failure(rt, b"cards.bin", b"counted");
}

// Prints what the filter selects from the cards of a file, run by run.
pub fn print_matches<R: Read>(
    rt: &(impl Print + Eprint),
    sheet: &[u8],
    filter: &[u8],
    file: &mut R,
    buffer: &mut [u8],
)
    requires { length buffer.old ≡ 65536 }
{
    let mut totals = Totals {
        matches: 0,
        cards: 0,
    };
    // no for: how many runs there are is known only when a read brings fewer than 128 cards
    while totals.cards < MOST_CARDS {
        let Some(more) = next_run(rt, sheet, filter, file, buffer, totals) else {
            return;
        };
        totals = more;
    }
    print_too_many(rt);
}

// pick: which cards of the archive in the current folder match its filter. It reads sheet.bin, filter.txt and cards.bin,
// prints the record number of each matching card on a line, and last how many of the cards match, or why there is no answer.
#![tactic(auto)]

mod files;
mod printing;
mod runs;

ghost use Rattle.std.specs.Prelude.{◌≤◌, length};
ghost use Rattle.pick.specs.Bounds.{Fills};

use files::fill;
use listing::without_line_feed;
use printing::{print_failure, print_usage};
use runs::print_matches;
use std::env::FillError;
use std::fs;
use std::rt::{Env, Files};

// Whether the program was given an argument. Argument 0 is its name.
fn has_arguments(rt: &impl Env) -> bool {
    !matches!(rt.arg(1, &mut [0; 1]), Err(FillError::NotPresent))
}

// Reads a file into the buffer, as much as there is room for, or prints why that cannot be done.
fn load(rt: &(impl Files + Print + Eprint), file: &str, buffer: &mut [u8]) -> Option<usize>
    requires { length file.now ≤ 46 }
    ensures { Fills result (length buffer.new) }
{
    let Ok(mut opened) = fs::open(rt, file) else {
        print_failure(rt, file.as_bytes(), b"opened");
        return None;
    };
    let filled = fill(&mut opened, buffer);
    if filled.is_none() {
        print_failure(rt, file.as_bytes(), b"read");
    }
    filled
}

// Prints what the filter selects from cards.bin.
fn pick(rt: &(impl Files + Print + Eprint), sheet: &[u8], filter: &[u8]) {
    let Ok(mut cards) = fs::open(rt, "cards.bin") else {
        print_failure(rt, b"cards.bin", b"opened");
        return;
    };
    let mut buffer = [0u8; 65536];
    print_matches(rt, sheet, filter, &mut cards, &mut buffer);
}

// Each buffer has room for one byte more than its file may have, so that a file that is too long is refused and not cut.
fn main(rt: HostRuntime) {
    if has_arguments(&rt) {
        print_usage(&rt);
        return;
    }
    let mut sheet = [0u8; 513];
    let Some(size) = load(&rt, "sheet.bin", &mut sheet) else {
        return;
    };
    let mut filter = [0u8; 1026];
    let Some(length) = load(&rt, "filter.txt", &mut filter) else {
        return;
    };
    let text = without_line_feed(&filter[0..length]);
    pick(&rt, &sheet[0..size], text);
}

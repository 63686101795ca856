// A case in the file: six numbers, which are the operation (`ask` has the list), the lengths of its label, sheet, filter and
// cards, and the cells of its list; then the bytes of label, sheet, filter and cards. A number is four bytes, low byte first.
ghost use Rattle.std.specs.Prelude.{◌≤◌, length};

use crate::ask::ask;
use crate::write::write;
use std::io::Read;

// What a case asks, and where its parts end in the bytes that follow its numbers.
#[derive(Clone, Copy)]
struct Head {
    operation: u32,
    label: usize,
    sheet: usize,
    filter: usize,
    cards: usize,
    cells: usize,
}

// Fills the space from the file; whether the file held enough for it.
pub fn load<R: Read>(file: &mut R, space: &mut [u8]) -> bool {
    file.read_exact(space).is_ok()
}

// The numbers of a case.
fn read_head(numbers: &[u8; 24]) -> Head
    ensures { (result.label ≤ result.sheet) × (result.sheet ≤ result.filter) × (result.filter ≤ result.cards) }
{
    let label = block::word(numbers, 4) as usize;
    let sheet = label + block::word(numbers, 8) as usize;
    let filter = sheet + block::word(numbers, 12) as usize;
    let cards = filter + block::word(numbers, 16) as usize;
    Head {
        operation: block::word(numbers, 0),
        label,
        sheet,
        filter,
        cards,
        cells: block::word(numbers, 20) as usize,
    }
}

// Takes the bytes of a case apart and asks what it asks.
fn answer(rt: &(impl Print + Eprint), h: Head, bytes: &[u8]) -> bool
    requires { (h.label ≤ h.sheet) × (h.sheet ≤ h.filter) × (h.filter ≤ h.cards) × (h.cards ≤ length bytes.now) }
{
    let label = h.label;
    let sheet = h.sheet;
    let filter = h.filter;
    let cards = h.cards;
    ask(
        rt,
        h.operation,
        h.cells,
        &bytes[0..label],
        &bytes[label..sheet],
        &bytes[sheet..filter],
        &bytes[filter..cards],
    )
}

// Reads a case and prints its line; whether there was one, no larger than the space, and the line was written.
fn case<R: Read>(rt: &(impl Print + Eprint), file: &mut R, space: &mut [u8]) -> bool {
    let mut numbers = [0u8; 24];
    if !load(file, &mut numbers) {
        return false;
    }
    let h = read_head(&numbers);
    let end = h.cards;
    if end > space.len() {
        return false;
    }
    if !load(file, &mut space[0..end]) {
        return false;
    }
    if !answer(rt, h, space) {
        return false;
    }
    write(rt, b"\n")
}

// Reads `count` cases and prints their lines; whether they were there and their lines written.
pub fn cases<R: Read>(
    rt: &(impl Print + Eprint),
    file: &mut R,
    count: u32,
    space: &mut [u8],
) -> bool {
    for _ in 0..count {
        if !case(rt, file, space) {
            return false;
        }
    }
    true
}

// The operations on the parts of a case. Each prints the case's label and what was answered; whether that was written.
use crate::answers::{cells, counted, matched};
use crate::write::write;
use refusal::Refusal;

// Select, by a filter or by a search string, on a list of `size` cells that hold 999, with the cells that it leaves; whether there is room
// for the list and it was written.
fn ask_select<F: FnOnce(&mut [u32]) -> Result<usize, Refusal>>(
    rt: &(impl Print + Eprint),
    size: usize,
    label: &[u8],
    select: F,
) -> bool
    requires { F.IsAlwaysCallable select }
{
    if size > 128 {
        return false;
    }
    let mut room = [999u32; 128];
    let list = &mut room[0..size];
    write(rt, label) && counted(rt, b"count ", select(list)) && cells(rt, list)
}

// The operation with this number: 0 check, 1 match, 2 select, and 3 to 5 the same by a search string; whether it could be asked and
// its line was written.
pub fn ask(
    rt: &(impl Print + Eprint),
    operation: u32,
    size: usize,
    label: &[u8],
    sheet: &[u8],
    filter: &[u8],
    cards: &[u8],
) -> bool {
    // an operation is a number in the file of cases
    match operation {
        0 => write(rt, label) && counted(rt, b"tests ", sirophan::check(sheet, filter)),
        1 => write(rt, label) && matched(rt, sirophan::match_card(sheet, filter, cards)),
        2 => ask_select(
            rt,
            size,
            label,
            |list| sirophan::select(sheet, filter, cards, list),
        ),
        3 => write(rt, label) && counted(rt, b"tests ", sirophan::check_search(sheet, filter)),
        4 => write(rt, label) && matched(rt, sirophan::match_search(sheet, filter, cards)),
        5 => ask_select(
            rt,
            size,
            label,
            |list| sirophan::select_search(sheet, filter, cards, list),
        ),
        _ => false,
    }
}

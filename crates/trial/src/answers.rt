// Answers in words. Each function answers whether they were written.
use crate::write::{labelled, write};
use refusal::Refusal;

// A refusal: its number and its place.
fn refused(rt: &(impl Print + Eprint), r: Refusal) -> bool {
    labelled(rt, b"", u64::from(u32::from(r.reason))) && labelled(rt, b" at ", r.place as u64)
}

// What check or select counted, after a word for it.
pub fn counted(rt: &(impl Print + Eprint), word: &[u8], c: Result<usize, Refusal>) -> bool {
    match c {
        Ok(n) => labelled(rt, word, n as u64),
        Err(r) => refused(rt, r),
    }
}

// What match answered.
pub fn matched(rt: &(impl Print + Eprint), m: Result<bool, Refusal>) -> bool {
    match m {
        Ok(true) => write(rt, b"yes"),
        Ok(false) => write(rt, b"no"),
        Err(r) => refused(rt, r),
    }
}

// A cell of a list.
fn cell(rt: &(impl Print + Eprint), n: u32) -> bool {
    labelled(rt, b" ", u64::from(n))
}

// The cells of a list.
pub fn cells(rt: &(impl Print + Eprint), list: &[u32]) -> bool {
    if !write(rt, b" cells") {
        return false;
    }
    for n in list {
        if !cell(rt, *n) {
            return false;
        }
    }
    true
}

// Runs check, match and select, by filters and by search strings, on the cases of cases.bin, and prints a line for each: its label and what was answered.
#![tactic(auto)]

mod answers;
mod ask;
mod record;
mod write;

use record::{cases, load};
use std::io::{Read, Write};
use std::str::from_utf8;
use std::{fs, io};

// Room for the parts of a case. The largest has 129 cards, one more than a run may have.
const LARGEST: usize = 70000;

// Runs a file of cases: their number, the cases, and nothing after them. Answers whether that is what the file held, and all
// lines were written.
fn run<R: Read>(rt: &(impl Print + Eprint), file: &mut R) -> bool {
    let mut count = [0u8; 4];
    if !load(file, &mut count) {
        return false;
    }
    let mut space = [0u8; LARGEST];
    if !cases(rt, file, block::word(&count, 0), &mut space) {
        return false;
    }
    let mut more = [0u8; 1];
    file.read(&mut more).unwrap_or(0) == 0
}

// Says on standard error why cases.bin cannot be opened, as `cases.bin: No such file or directory`. An error's text has its number behind
// it, in brackets, which is left out.
fn print_unopened(rt: &impl Eprint, error: io::Error) {
    let mut buffer = io::Cursor::new([0u8; 256]);
    let _ = write!(buffer, "{error}");
    let size = buffer.position();
    let bytes = buffer.into_inner();
    let text = from_utf8(bytes.get(..size as usize).unwrap_or(&[])).unwrap_or("cannot be opened");
    let cause = text
        .rsplit_once(" (os error ")
        .map_or(text, |(cause, _)| cause);
    let _ = eprintln!(rt; "cases.bin: {cause}");
}

fn main(rt: HostRuntime) {
    let mut file = match fs::open(&rt, "cases.bin") {
        Ok(file) => file,
        Err(error) => {
            print_unopened(&rt, error);
            return;
        }
    };
    // after a write that failed, which was told, this one fails too
    if !run(&rt, &mut file) {
        let _ = rt.println("cases.bin is damaged, cut short or cannot be read");
    }
}

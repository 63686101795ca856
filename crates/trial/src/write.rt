// Writing to standard output. Each function answers whether that was done, so that nothing more is tried after a write that failed.
use std::io;

// Says on standard error that the output cannot be written, where it was not.
fn reported(rt: &impl Eprint, written: io::Result<()>) -> bool {
    if written.is_ok() {
        return true;
    }
    let _ = rt.eprintln("trial: the output cannot be written");
    false
}

// Writes a text.
pub fn write(rt: &(impl Print + Eprint), t: &[u8]) -> bool {
    reported(rt, rt.write_all(t))
}

// Writes a number after a text.
pub fn labelled(rt: &(impl Print + Eprint), label: &[u8], n: u64) -> bool {
    write(rt, label) && reported(rt, rt.print(n))
}

// Lines of the output, written: each is put into a buffer, and a buffer is written in one piece.
ghost use Rattle.std.specs.Prelude.{◌+◌, ◌≤◌, length};

use listing::put_failure;

// Writes a piece of the output, and answers whether that was done; where not, standard error says so.
pub fn print(rt: &(impl Print + Eprint), piece: &[u8]) -> bool {
    if rt.write_all(piece).is_ok() {
        return true;
    }
    let _ = rt.eprintln("pick: the output cannot be written");
    false
}

// Says on standard error how the program is used.
pub fn print_usage(rt: &impl Eprint) {
    let usage =
        "pick takes no arguments: it reads sheet.bin, filter.txt and cards.bin in the current folder";
    let _ = rt.eprintln(usage);
}

// Prints what cannot be done with a file. The words around the two texts take 12 bytes.
pub fn print_failure(rt: &(impl Print + Eprint), file: &[u8], done: &[u8])
    requires { length file.now + length done.now ≤ 52 }
{
    let mut buffer = [0u8; 64];
    let size = put_failure(file, done, &mut buffer);
    print(rt, &buffer[0..size]);
}

// Reading files: a read that fails is told from the end of a file.
ghost use Rattle.std.specs.Prelude.{◌≡◌, is_err, length};
ghost use Rattle.pick.specs.Bounds.{Fills, ended_by};

use std::io;
use std::io::Read;

// Whether a read failed.
fn has_failed(got: io::Result<usize>) -> bool
    ensures { result ≡ is_err got }
{
    got.is_err()
}

// What a buffer has where a read gave nothing more: a read that fails is no end of the file.
fn ended(at: usize, got: io::Result<usize>) -> Option<usize>
    ensures { result ≡ ended_by at got }
{
    if has_failed(got) {
        return None;
    }
    Some(at)
}

// Reads until the buffer is full or the file ends, and answers how many bytes stand at its start; none, where a read failed.
pub fn fill<R: Read>(file: &mut R, buffer: &mut [u8]) -> Option<usize>
    ensures { Fills result (length buffer.new) }
{
    let mut at = 0;
    // no for: a read gives as many bytes as it likes
    while at < buffer.len() {
        let got = file.read(&mut buffer[at..]);
        let n = got.unwrap_or(0);
        if n == 0 {
            return ended(at, got);
        }
        at += n;
    }
    Some(at)
}

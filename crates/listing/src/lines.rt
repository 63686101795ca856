// Lines of the output. Each is put over the first bytes of a part of a buffer: not by `write!`, since the bytes may be no text and what is left behind
// them in the buffer is promised too.
ghost use Rattle.std.specs.Prelude.{◌+◌, ◌*◌, ◌≤◌, ◌≡◌, ◌++◌, length};
ghost use Rattle.base.specs.Writing.{Room, Puts};
ghost use Rattle.listing.specs.Lines.{decimal, labelled, number_line, lines, refusal_line, count_line, failure_line};

use base::write_word;

// Puts a number in decimal digits, and answers how many they are.
fn put_number(n: u64, out: &mut [u8]) -> usize
    requires { Room (decimal n) out.old }
    ensures { Puts (decimal n) out.old out.new result }
{
    // fixed memory, for the most digits of a number of 64 bits
    let mut digits = [0u8; 20];
    let count = io::decimal(n, &mut digits);
    write_word(&digits[..count], out)
}

// Puts a number behind a word.
fn put_labelled(word: &[u8], n: u64, out: &mut [u8]) -> usize
    requires { Room (labelled word.now n) out.old }
    ensures { Puts (labelled word.now n) out.old out.new result }
{
    let end = write_word(word, out);
    end + put_number(n, &mut out[end..])
}

// Puts one word behind another.
fn put_words(first: &[u8], second: &[u8], out: &mut [u8]) -> usize
    requires { Room (first.now ++ second.now) out.old }
    ensures { Puts (first.now ++ second.now) out.old out.new result }
{
    let end = write_word(first, out);
    end + write_word(second, &mut out[end..])
}

// Puts a number on a line.
fn put_line(n: u64, out: &mut [u8]) -> usize
    requires { Room (number_line n) out.old }
    ensures { Puts (number_line n) out.old out.new result }
{
    let end = put_number(n, out);
    end + write_word(b"\n", &mut out[end..])
}

// Puts numbers, each on a line.
pub fn put_lines(numbers: &[u32], out: &mut [u8]) -> usize
    requires { 21 * length numbers.now ≤ length out.old }
    ensures { Puts (lines numbers.now) out.old out.new result }
{
    let mut at = 0;
    for n in numbers {
        at += put_line(u64::from(*n), &mut out[at..]);
    }
    at
}

// Puts a refusal, as `refused 16 at 0`.
pub fn put_refusal(number: u64, place: u64, out: &mut [u8]) -> usize
    requires { Room (refusal_line number place) out.old }
    ensures { Puts (refusal_line number place) out.old out.new result }
{
    let first = put_labelled(b"refused ", number, out);
    let second = first + put_labelled(b" at ", place, &mut out[first..]);
    second + write_word(b"\n", &mut out[second..])
}

// Puts the last line, as `2 of 3`.
pub fn put_count(matches: u64, cards: u64, out: &mut [u8]) -> usize
    requires { Room (count_line matches cards) out.old }
    ensures { Puts (count_line matches cards) out.old out.new result }
{
    let first = put_number(matches, out);
    let second = first + put_labelled(b" of ", cards, &mut out[first..]);
    second + write_word(b"\n", &mut out[second..])
}

// Puts what cannot be done with a file, as `cards.bin cannot be read`.
pub fn put_failure(file: &[u8], done: &[u8], out: &mut [u8]) -> usize
    requires { Room (failure_line file.now done.now) out.old }
    ensures { Puts (failure_line file.now done.now) out.old out.new result }
{
    let end = put_words(file, b" cannot be ", out);
    end + put_words(done, b"\n", &mut out[end..])
}

// Tests in their plain spelling: a name, an operator and a value, with one space between.
ghost use Rattle.std.specs.Prelude.{◌≤◌, ◌<◌, length};
ghost use Rattle.base.specs.Writing.{Room, Puts};
ghost use Rattle.plain.specs.Plain.{plain_test};
ghost use Rattle.plain.specs.Writing.{operator_text};

use crate::value::write_value;
use base::write_word;
use syntax::FilterTest;

// Writes an operator with a space on either side, and answers how many bytes that takes.
fn write_operator(operator: u8, out: &mut [u8]) -> usize
    requires operator_bound { operator < 19 }
    requires room { Room (operator_text operator) out.old }
    ensures { Puts (operator_text operator) out.old out.new result }
{
    let words = b"eqnecoswewgtltgeleapsaebprposssbinnire";
    let i = 2 * usize::from(operator);
    write_word(&[b' ', words[i], words[i + 1], b' '], out)
}

// Writes a test, and answers its length.
pub fn write_test(test: &FilterTest<'_>, out: &mut [u8]) -> usize
    requires operator_bound { test.now.operator < 19 }
    requires room { Room (plain_test test.now) out.old }
    ensures { Puts (plain_test test.now) out.old out.new result }
{
    let name = write_word(test.name(), out);
    let middle = write_operator(test.operator(), &mut out[name..]);
    let end = name + middle;
    end + write_value(test, &mut out[end..])
}

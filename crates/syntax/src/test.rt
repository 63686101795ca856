// Tests: a name, an operator and a value, with at least one space between. That a position lies in the text is a clause, for the reason in `lib`.
ghost use Rattle.std.specs.Prelude.{◌≡◌, ◌≤◌, length, drop};
ghost use Rattle.base.specs.Names.{is_name_part, is_name};
ghost use Rattle.base.specs.Parts.{part};
ghost use Rattle.base.specs.Runs.{RunEnd};
ghost use Rattle.syntax.specs.Scan.{follows, operator_at, test_value, test_operator, test_at};

use crate::RawTest;
use crate::scan::{name_end, skip};
use crate::value::read_value;
use base::name::{is_name_start, is_reserved};
use base::operator::Operator;

// The operator at a position, by the number that a test keeps: the words are counted. They stand in one text outside the loop, since a
// text in the code is copied each time it is come to; two letters are compared as one number, which takes half the instructions.
pub fn read_operator(s: &[u8], at: usize) -> Option<u8>
    requires { at ≤ length s.now }
    ensures { result ≡ operator_at s.now at }
{
    if s.len() - at < 2 {
        return None;
    }
    let first = s[at];
    let second = s[at + 1];
    let letters = u16::from_be_bytes([first, second]);
    let words = b"eqnecoswewgtltgeleapsaebprposssbinnire";
    for k in 0..Operator::COUNT {
        let i = 2 * usize::from(k);
        let word = u16::from_be_bytes([words[i], words[i + 1]]);
        if letters == word {
            return Some(k);
        }
    }
    None
}

// Whether a value may end at a position: "after a value comes a space, a ")" or the end", where `close` closes the
// bracket around the test.
fn may_follow(s: &[u8], at: usize, close: u8) -> bool
    requires { at ≤ length s.now }
    ensures { result ≡ follows close (drop at s.now) }
{
    if at == s.len() {
        return true;
    }
    let b = s[at];
    if b == b' ' {
        return true;
    }
    b == close
}

// The value of a test at `at` whose name ends at `until` and whose operator ends at `after`: each of the six is read one after the other, and
// the test is made of them here.
fn read_test_value(
    s: &[u8],
    close: u8,
    at: usize,
    until: usize,
    operator: u8,
    after: usize,
) -> Option<RawTest>
    requires { after ≤ length s.now }
    ensures { result ≡ test_value s.now close at until operator after }
{
    let start = skip(s, after);
    if start == after {
        return None;
    }
    let value = read_value(s, start)?;
    if may_follow(s, value.next, close) {
        return Some(RawTest {
            at,
            until,
            operator,
            value,
        });
    }
    None
}

// The operator and the value of a test at `at` whose name ends at `until`.
fn read_test_operator(s: &[u8], close: u8, at: usize, until: usize) -> Option<RawTest>
    requires { until ≤ length s.now }
    ensures { result ≡ test_operator s.now close at until }
{
    let word = skip(s, until);
    if word == until {
        return None;
    }
    let operator = read_operator(s, word)?;
    read_test_value(s, close, at, until, operator, word + 2)
}

// Whether the bytes from `at` up to `until`, with each of which a name may go on, are a name.
pub fn is_name_run(s: &[u8], at: usize, until: usize) -> bool
    requires { RunEnd is_name_part s.now at until }
    ensures { result ≡ is_name (part s.now at until) }
{
    if until == at {
        return false;
    }
    if !is_name_start(s[at]) {
        return false;
    }
    !is_reserved(&s[at..until])
}

// The test that begins at a position, where `close` closes the bracket around it.
pub fn read_test(s: &[u8], close: u8, at: usize) -> Option<RawTest>
    requires { at ≤ length s.now }
    ensures { result ≡ test_at s.now close at }
{
    let until = name_end(s, at);
    if is_name_run(s, at, until) {
        return read_test_operator(s, close, at, until);
    }
    None
}

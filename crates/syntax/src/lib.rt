// The filter's text: what stands at a position, each answer with the positions of its parts.
// Sheets, kinds and cards are no matter of this layer.
#![tactic(auto)]

mod filter_test;
mod filter_text;
pub mod scan;
pub mod test;
pub mod value;

ghost use Rattle.std.specs.Prelude.{◌≡◌, ◌≤◌, length};
ghost use Rattle.syntax.specs.Scan.{open_at, choice_at, choice_or, head_at, test_in, member_at, member_after, connective_at, close_at};

pub use filter_test::{FilterTest, ValueBytes};
pub use filter_text::FilterText;
use scan::{has, name_end, skip};
use test::{is_name_run, read_test};

// A value as it stands in the text: its bytes from start up to end, whether an escape is among them, and where the
// text goes on.
#[derive(Clone, Copy)]
pub struct RawValue {
    pub start: usize,
    pub end: usize,
    // no Option: with an escape or without there is a value, and it has all these parts
    pub escaped: bool,
    pub next: usize,
}

// A test as it stands in the text: its name from `at` up to `until`, its operator's number, its value. The operator stands
// second, as a bracket's `not` does in `Head`: a byte there, so that no number is written in pieces. It is a number, as definitions make it.
#[derive(Clone, Copy)]
pub struct RawTest {
    pub at: usize,
    pub operator: u8,
    pub until: usize,
    pub value: RawValue,
}

// What a byte does in a string: the string goes on, after a backslash or not; it ends; it is none.
// No Option or Result: of its three arms two end the string, one well and one not.
#[derive(Clone, Copy)]
pub enum StringStep {
    More(bool),
    Close,
    Wrong,
}

// The position of a string's closing quote, and whether an escape stands before it.
#[derive(Clone, Copy)]
pub struct StringEnd {
    pub end: usize,
    // no Option: a string has its end with an escape or without
    pub escaped: bool,
}

// What an item begins with: a whole test; a bracket, whose filter begins at the position, with not or without; or a name, which
// ends at the position, and a square bracket.
// Each of the three arms is a beginning: where no item begins, read_head answers None.
#[derive(Clone, Copy)]
pub enum Head {
    Test(RawTest),
    Open(usize, bool),
    Choice(usize),
}

// 01: a joining word.
// An enum and no bool: `and` is not the lack of `or`.
#[derive(Clone, Copy)]
pub enum Connective {
    And,
    Or,
}

// Where the item after a connective begins, and the connective.
#[derive(Clone, Copy)]
pub struct Link {
    pub next: usize,
    pub connective: Connective,
}

// That a position lies in the text is a clause of each function below, and of those in `scan`, `test` and `value`: of their 39 calls 18 begin at
// another position than the caller's, where a type of text and position would have to be made and its fact proved.

// A bracket that opens at a position: "(", or "not", spaces and "(", with the spaces after it.
fn read_open(s: &[u8], at: usize) -> Option<Head>
    requires { at ≤ length s.now }
    ensures { result ≡ open_at s.now at }
{
    if has(s, at, b"(") {
        return Some(Head::Open(skip(s, at + 1), false));
    }
    if has(s, at, b"not") {
        let bracket = skip(s, at + 3);
        if has(s, bracket, b"(") {
            return Some(Head::Open(skip(s, bracket + 1), true));
        }
        return None;
    }
    None
}

// A name and "[" at a position.
fn read_choice(s: &[u8], at: usize) -> Option<usize>
    requires { at ≤ length s.now }
    ensures { result ≡ choice_at s.now at }
{
    let until = name_end(s, at);
    if is_name_run(s, at, until) {
        if has(s, until, b"[") {
            return Some(until);
        }
        return None;
    }
    None
}

// A bracket that opens at a position, round or, after a name, square.
fn read_bracket(s: &[u8], at: usize) -> Option<Head>
    requires { at ≤ length s.now }
    ensures { result ≡ choice_or (choice_at s.now at) (open_at s.now at) }
{
    read_choice(s, at)
        .map(Head::Choice)
        .or_else(|| read_open(s, at))
}

// What an item begins with at a position, where `close` closes the bracket around the item.
#[tactic(auto, unfolding(crate::specs::Scan::head_at))]
fn read_head(s: &[u8], close: u8, at: usize) -> Option<Head>
    requires { at ≤ length s.now }
    ensures { result ≡ head_at s.now close at }
{
    read_test(s, close, at)
        .map(Head::Test)
        .or_else(|| read_bracket(s, at))
}

// The test that an item begins with, if it does.
fn test_in(head: Option<Head>) -> Option<RawTest>
    ensures { result ≡ test_in head }
{
    match head {
        Some(Head::Test(test)) => Some(test),
        _ => None,
    }
}

// "." and the test of a member at a position, where `close` closes the bracket around it. It is read by way of `read_head`, so that
// `read_test` has one caller and is compiled into it.
fn read_dotted(s: &[u8], close: u8, at: usize) -> Option<RawTest>
    requires { at ≤ length s.now }
    ensures { result ≡ member_at s.now close at }
{
    if has(s, at, b".") {
        return test_in(read_head(s, close, at + 1));
    }
    None
}

// The test of a member after a filter in square brackets that ends at a position, where `close` closes the bracket around it.
fn read_member(s: &[u8], close: u8, at: usize) -> Option<RawTest>
    requires { at ≤ length s.now }
    ensures { result ≡ member_after s.now close at }
{
    let after = read_close(s, b']', at)?;
    read_dotted(s, close, after)
}

// The connective after an item that ends at a position, "with at least one space on both sides".
fn read_connective(s: &[u8], at: usize) -> Option<Link>
    requires { at ≤ length s.now }
    ensures { result ≡ connective_at s.now at }
{
    let word = skip(s, at);
    if word == at {
        return None;
    }
    if has(s, word, b"and ") {
        return Some(Link {
            next: skip(s, word + 4),
            connective: Connective::And,
        });
    }
    if has(s, word, b"or ") {
        return Some(Link {
            next: skip(s, word + 3),
            connective: Connective::Or,
        });
    }
    None
}

// The byte that closes a bracket after a filter that ends at a position.
fn read_close(s: &[u8], close: u8, at: usize) -> Option<usize>
    requires { at ≤ length s.now }
    ensures { result ≡ close_at s.now close at }
{
    let end = skip(s, at);
    if has(s, end, &[close]) {
        return Some(end + 1);
    }
    None
}

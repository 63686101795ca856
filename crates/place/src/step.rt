// What a byte does where the text has come to.
ghost use Rattle.std.specs.Prelude.{◌≡◌, [], ◌∷◌, ◌≤◌, ◌<◌, length};
ghost use Rattle.base.specs.Ascii.{ascii};
ghost use Rattle.base.specs.Lists.{member};
ghost use Rattle.place.specs.Machine.{begins_operator, is_operator};
ghost use Rattle.place.specs.Code.{on, opened, chosen, closed, joined, ended, item_step, not_step, name_ends, name_step, member_start, member_step, after_name, letter, quoted, value_step, bare_step, after_space, expect, advance, name_from};

use crate::{Mode, Reached};
use base::name::{is_name, is_name_part, is_name_start};
use refusal::Reason;
use syntax::StringStep;
use syntax::scan::is_space;
use syntax::test::read_operator;
use syntax::value::{is_bare, string_step};

// What a byte comes to: the text may go on with it, or only beyond the limit on nesting (TooDeep), or beyond that on tests (TooMany), or
// not at all (NoFilter).
type Outcome = Result<Reached, Reason>;

// The text may go on in a mode.
fn live(mode: Mode, brackets: usize, tests: usize) -> Outcome
    ensures { result ≡ on mode brackets tests }
{
    Ok(Reached {
        mode,
        brackets,
        tests,
    })
}

// A round bracket opens.
fn opens(brackets: usize, tests: usize) -> Outcome
    ensures { result ≡ opened brackets tests }
{
    if brackets < 256 {
        return live(Mode::Item, 2 * brackets, tests);
    }
    Err(Reason::TooDeep)
}

// A square bracket opens: one test more is due, the first one in it. Where both limits are met, neither alone is the reason.
fn chooses(brackets: usize, tests: usize) -> Outcome
    ensures { result ≡ chosen brackets tests }
{
    if brackets < 256 {
        if tests < 32 {
            return live(Mode::Item, 2 * brackets + 1, tests + 1);
        }
        return Err(Reason::TooMany);
    }
    if tests < 32 {
        return Err(Reason::TooDeep);
    }
    Err(Reason::NoFilter)
}

// The one byte that may come.
fn expect(want: u8, mode: Mode, b: u8, brackets: usize, tests: usize) -> Outcome
    ensures { result ≡ expect want mode b brackets tests }
{
    if b == want {
        return live(mode, brackets, tests);
    }
    Err(Reason::NoFilter)
}

// A byte that may close the innermost bracket, if one is open.
fn closes(b: u8, brackets: usize, tests: usize) -> Outcome
    ensures { result ≡ closed b brackets tests }
{
    if brackets == 1 {
        return Err(Reason::NoFilter);
    }
    if brackets % 2 == 0 {
        return expect(b')', Mode::AfterItem, b, brackets / 2, tests);
    }
    expect(b']', Mode::AfterSquare, b, brackets / 2, tests)
}

// A connective begins: one test more is due.
fn joins(mode: Mode, brackets: usize, tests: usize) -> Outcome
    ensures { result ≡ joined mode brackets tests }
{
    if tests < 32 {
        return live(mode, brackets, tests + 1);
    }
    Err(Reason::TooMany)
}

// The byte after a value or a round bracket.
fn ends(b: u8, brackets: usize, tests: usize) -> Outcome
    ensures { result ≡ ended b brackets tests }
{
    if is_space(b) {
        return live(Mode::AfterSpace, brackets, tests);
    }
    closes(b, brackets, tests)
}

// The byte where an item is due.
fn item_byte(b: u8, at: usize, brackets: usize, tests: usize) -> Outcome
    ensures { result ≡ item_step b at brackets tests }
{
    if is_space(b) {
        return live(Mode::Item, brackets, tests);
    }
    if b == b'(' {
        return opens(brackets, tests);
    }
    if is_name_start(b) {
        return live(Mode::Name(at), brackets, tests);
    }
    Err(Reason::NoFilter)
}

// The byte after not, or after not and spaces.
fn not_byte(b: u8, brackets: usize, tests: usize) -> Outcome
    ensures { result ≡ not_step b brackets tests }
{
    if is_space(b) {
        if brackets < 256 {
            return live(Mode::AfterNot, brackets, tests);
        }
        return Err(Reason::TooDeep);
    }
    if b == b'(' {
        return opens(brackets, tests);
    }
    Err(Reason::NoFilter)
}

// The byte after a name.
fn name_ends(b: u8, brackets: usize, tests: usize) -> Outcome
    ensures { result ≡ name_ends b brackets tests }
{
    if is_space(b) {
        return live(Mode::AfterName, brackets, tests);
    }
    if b == b'[' {
        return chooses(brackets, tests);
    }
    Err(Reason::NoFilter)
}

// The byte after the bytes of a name, or of not, that begin at `from`.
fn name_byte(s: &[u8], from: usize, at: usize, brackets: usize, tests: usize) -> Outcome
    requires from_le_at { from ≤ at }
    requires at_in_bounds { at < length s.now }
    ensures { result ≡ name_step s.now from at brackets tests }
{
    let b = s[at];
    if is_name_part(b) {
        return live(Mode::Name(from), brackets, tests);
    }
    if is_name(&s[from..at]) {
        return name_ends(b, brackets, tests);
    }
    if base::equal(&s[from..at], b"not") {
        return not_byte(b, brackets, tests);
    }
    Err(Reason::NoFilter)
}

// The first byte of a member's name.
fn member_start(b: u8, at: usize, brackets: usize, tests: usize) -> Outcome
    ensures { result ≡ member_start b at brackets tests }
{
    if is_name_start(b) {
        return live(Mode::MemberName(at), brackets, tests);
    }
    Err(Reason::NoFilter)
}

// The byte after the bytes of a member's name that begin at `from`.
fn member_byte(s: &[u8], from: usize, at: usize, brackets: usize, tests: usize) -> Outcome
    requires from_le_at { from ≤ at }
    requires at_in_bounds { at < length s.now }
    ensures { result ≡ member_step s.now from at brackets tests }
{
    let b = s[at];
    if is_name_part(b) {
        return live(Mode::MemberName(from), brackets, tests);
    }
    if is_name(&s[from..at]) {
        if is_space(b) {
            return live(Mode::AfterName, brackets, tests);
        }
        return Err(Reason::NoFilter);
    }
    Err(Reason::NoFilter)
}

// Whether a letter begins one of eq, ne, co, sw, ew, gt, ge, sa, eb, ss, sb, ni.
#[tactic(auto, unfolding(base::specs::Lists::member))]
fn is_first(b: u8) -> bool
    ensures { result ≡ member b (ascii "cegns") }
{
    matches!(b, b'e' | b'n' | b'c' | b's' | b'g')
}

// Whether it begins one of lt, le, ap, pr, po, in, re.
#[tactic(auto, unfolding(base::specs::Lists::member))]
fn is_other(b: u8) -> bool
    ensures { result ≡ member b (ascii "ailpr") }
{
    matches!(b, b'l' | b'a' | b'p' | b'i' | b'r')
}

// Whether an operator begins with the letter.
#[tactic(auto, unfolding(crate::specs::Machine::begins_operator))]
fn begins_operator(b: u8) -> bool
    ensures { result ≡ begins_operator b }
{
    is_first(b) || is_other(b)
}

// Whether two letters are an operator.
#[tactic(auto, using(crate::proofs::Stepping::operator_is))]
fn is_operator(first: u8, second: u8) -> bool
    ensures { result ≡ is_operator (first ∷ second ∷ []) }
{
    read_operator(&[first, second], 0).is_some()
}

// The byte after a test's name and a space.
fn after_name_byte(b: u8, brackets: usize, tests: usize) -> Outcome
    ensures { result ≡ after_name b brackets tests }
{
    if is_space(b) {
        return live(Mode::AfterName, brackets, tests);
    }
    if begins_operator(b) {
        return live(Mode::Letter(b), brackets, tests);
    }
    Err(Reason::NoFilter)
}

// The byte after an operator's first letter.
fn letter_byte(first: u8, b: u8, brackets: usize, tests: usize) -> Outcome
    ensures { result ≡ letter first b brackets tests }
{
    if is_operator(first, b) {
        return live(Mode::AfterOperator, brackets, tests);
    }
    Err(Reason::NoFilter)
}

// The byte where a value is due.
fn value_byte(b: u8, brackets: usize, tests: usize) -> Outcome
    ensures { result ≡ value_step b brackets tests }
{
    if is_space(b) {
        return live(Mode::Value, brackets, tests);
    }
    if b == b'"' {
        return live(Mode::Quoted(false), brackets, tests);
    }
    if is_bare(b) {
        return live(Mode::Bare, brackets, tests);
    }
    Err(Reason::NoFilter)
}

// How many brackets are open and how many tests have begun are handed on one by one, as the definitions of the steps have them (`name_step`,
// `member_step`, ..): a struct would be made and taken apart at each.

// The byte in or after a bare word.
// Not one function with `ends`, though it has its form: this takes the bytes of a bare word, and leaves all others to `ends`.
fn bare_byte(b: u8, brackets: usize, tests: usize) -> Outcome
    ensures { result ≡ bare_step b brackets tests }
{
    if is_bare(b) {
        return live(Mode::Bare, brackets, tests);
    }
    ends(b, brackets, tests)
}

// The byte in a string, after a backslash or not.
fn quoted_byte(pending: bool, b: u8, brackets: usize, tests: usize) -> Outcome
    ensures { result ≡ quoted pending b brackets tests }
{
    match string_step(pending, b) {
        StringStep::More(next) => live(Mode::Quoted(next), brackets, tests),
        StringStep::Close => live(Mode::AfterItem, brackets, tests),
        StringStep::Wrong => Err(Reason::NoFilter),
    }
}

// The byte after an item and a space.
fn after_space_byte(b: u8, brackets: usize, tests: usize) -> Outcome
    ensures { result ≡ after_space b brackets tests }
{
    if is_space(b) {
        return live(Mode::AfterSpace, brackets, tests);
    }
    if b == b'a' {
        return joins(Mode::AfterA, brackets, tests);
    }
    if b == b'o' {
        return joins(Mode::AfterO, brackets, tests);
    }
    closes(b, brackets, tests)
}

// What the byte at a position does.
#[tactic(auto, using(crate::proofs::Stepping::by_mode_lem))]
pub fn advance(s: &[u8], at: usize, reached: Reached) -> Outcome
    requires at_in_bounds { at < length s.now }
    requires mode_bound { name_from reached.mode ≤ at }
    ensures { result ≡ advance s.now at reached }
{
    let mode = reached.mode;
    let brackets = reached.brackets;
    let tests = reached.tests;
    let b = s[at];
    match mode {
        Mode::Item => item_byte(b, at, brackets, tests),
        Mode::Name(from) => name_byte(s, from, at, brackets, tests),
        Mode::AfterNot => not_byte(b, brackets, tests),
        Mode::AfterName => after_name_byte(b, brackets, tests),
        Mode::Letter(first) => letter_byte(first, b, brackets, tests),
        Mode::AfterOperator => expect(b' ', Mode::Value, b, brackets, tests),
        Mode::Value => value_byte(b, brackets, tests),
        Mode::Bare => bare_byte(b, brackets, tests),
        Mode::Quoted(pending) => quoted_byte(pending, b, brackets, tests),
        Mode::AfterItem => ends(b, brackets, tests),
        Mode::AfterSpace => after_space_byte(b, brackets, tests),
        Mode::AfterA => expect(b'n', Mode::AfterAn, b, brackets, tests),
        Mode::AfterAn => expect(b'd', Mode::WantsSpace, b, brackets, tests),
        Mode::AfterO => expect(b'r', Mode::WantsSpace, b, brackets, tests),
        Mode::WantsSpace => expect(b' ', Mode::Item, b, brackets, tests),
        Mode::AfterSquare => expect(b'.', Mode::Member, b, brackets, tests),
        Mode::Member => member_start(b, at, brackets, tests),
        Mode::MemberName(from) => member_byte(s, from, at, brackets, tests),
    }
}

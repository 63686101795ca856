// The text of a filter, of which only the size is known: at most 1,024 bytes, so that a value of it has room in a buffer of that size.
ghost use Rattle.std.specs.Prelude.{◌≡◌, ℕ, List, true, false, ◌||◌, ◌+◌, ◌≤◌, ◌<◌, eqb, ltb, length, IfSome, IfNone};
ghost use Rattle.base.specs.Parts.{part};
ghost use Rattle.base.specs.Runs.{RunEnd};
ghost use Rattle.syntax.specs.Scan.{is_space, contents, value_at, head_at, member_after, connective_at, close_at};
ghost use Rattle.syntax.specs.Placed.{PlacedValue};

use crate::value::decode;
use crate::{Head, Link, RawTest, RawValue, scan, value};
use std::marker::Model;

// A filter's text. A clause sees the bytes.
#[derive(Drop)]
pub struct FilterText<'a> {
    pub bytes: &'a [u8],
}

impl<'a> Model for FilterText<'a> {
    ghost Value = { List ℕ };

    ghost view = { λ text. text.bytes.now };

    ghost invariant = { λ text. length text.bytes.now ≤ 1024 };
}

// That a position lies in the text is a clause of its methods, as of what they call.
impl<'a> FilterText<'a> {
    // The text that any bytes are, where they have the size of one: "empty or over 1,024 bytes" is the refusal 10.
    pub fn read(bytes: &'a [u8]) -> Option<FilterText<'a>>
        ensures read { IfSome result (λ text. (text ≡ bytes.now) × ((eqb (length bytes.now) 0 || ltb 1024 (length bytes.now)) ≡ false)) }
        ensures wrong_size { IfNone result ((eqb (length bytes.now) 0 || ltb 1024 (length bytes.now)) ≡ true) }
    {
        if bytes.len() == 0 {
            return None;
        }
        if bytes.len() > 1024 {
            return None;
        }
        Some(FilterText { bytes })
    }

    // How many bytes it has.
    pub fn len(&self) -> usize
        ensures length { result ≡ length self.now }
        ensures most { result ≤ 1024 }
    {
        self.bytes.len()
    }

    // The bytes from a position up to another.
    pub fn part(&self, from: usize, to: usize) -> &'a [u8]
        requires order { from ≤ to }
        requires within { to ≤ length self.now }
        ensures part { result.now ≡ part self.now from to }
        ensures most { length result.now ≤ 1024 }
    {
        &self.bytes[from..to]
    }

    // The first position from `at` on where no space stands.
    pub fn skip(&self, at: usize) -> usize
        requires { at ≤ length self.now }
        ensures run { RunEnd is_space self.now at result }
        ensures most { result ≤ 1024 }
    {
        scan::skip(self.bytes, at)
    }

    // The same from behind a position on.
    pub fn skip_after(&self, at: usize) -> usize
        requires { at < length self.now }
        ensures { RunEnd is_space self.now (at + 1) result }
    {
        scan::skip(self.bytes, at + 1)
    }

    // The value that begins at a position.
    pub fn read_value(&self, at: usize) -> Option<RawValue>
        ensures { result ≡ value_at self.now at }
    {
        value::read_value(self.bytes, at)
    }

    // What an item begins with at a position, where `close` closes the bracket around the item.
    pub fn read_head(&self, close: u8, at: usize) -> Option<Head>
        requires { at ≤ length self.now }
        ensures { result ≡ head_at self.now close at }
    {
        crate::read_head(self.bytes, close, at)
    }

    // The test of a member after a filter in square brackets that ends at a position, where `close` closes the bracket around it; and what is
    // known of the text's size, so that what is counted along it can be added.
    pub fn read_member(&self, close: u8, at: usize) -> Option<RawTest>
        requires { at ≤ length self.now }
        ensures test { result ≡ member_after self.now close at }
        ensures most { length self.now ≤ 1024 }
    {
        crate::read_member(self.bytes, close, at)
    }

    // The connective after an item that ends at a position, and where the next item begins; and what is known of the text's size.
    pub fn read_connective(&self, at: usize) -> Option<Link>
        requires { at ≤ length self.now }
        ensures link { result ≡ connective_at self.now at }
        ensures most { length self.now ≤ 1024 }
    {
        crate::read_connective(self.bytes, at)
    }

    // Behind the byte that closes a bracket after a filter that ends at a position.
    pub fn read_close(&self, close: u8, at: usize) -> Option<usize>
        requires { at ≤ length self.now }
        ensures { result ≡ close_at self.now close at }
    {
        crate::read_close(self.bytes, close, at)
    }

    // What a function says of a value of the text: of its bytes as they stand or, where it has escapes, of those that they stand for.
    pub fn of_value<T, F: FnOnce(&[u8]) -> T>(&self, value: RawValue, say: F) -> T
        requires placed { PlacedValue self.now value }
        requires callable { F.IsAlwaysCallable say }
        ensures { (of : List ℕ → T) → ((b : _) (x : T) → F.post say b x → x ≡ of b.now) → result ≡ of (contents value.escaped (part self.now value.start value.end)) }
    {
        let text = self.bytes;
        if value.escaped {
            // fixed memory, for the longest value of the longest filter
            let mut bytes = [0u8; 1024];
            let n = decode(&text[value.start..value.end], &mut bytes);
            return say(&bytes[..n]);
        }
        say(&text[value.start..value.end])
    }
}

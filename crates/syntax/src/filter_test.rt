// A test of a filter: the filter's text, and where the test stands in it.
ghost use Rattle.std.specs.Prelude.{◌≡◌, ℕ, List, ◌≤◌, length};
ghost use Rattle.syntax.specs.Tree.{name};
ghost use Rattle.syntax.specs.Scan.{contents};

use crate::{FilterText, RawTest};
use std::marker::Model;

// The bytes of a test's value as they stand in the text.
#[derive(Clone, Copy)]
pub struct ValueBytes<'a> {
    pub bytes: &'a [u8],
    // no Option: with an escape or without the bytes are there
    pub escaped: bool,
}

// A test with the text that it stands in. A clause sees the test that it is.
#[derive(Drop)]
pub struct FilterTest<'a> {
    pub text: &'a FilterText<'a>,
    pub raw: RawTest,
}

impl<'a> Model for FilterTest<'a> {
    ghost use Rattle.syntax.specs.Tree.{Test};
    ghost use Rattle.syntax.specs.Coding.{test_code};

    ghost Value = { Test };

    ghost coded = { test_code };

    ghost use Rattle.syntax.specs.Scan.{test_of};
    ghost use Rattle.syntax.specs.Placed.{Placed};

    ghost view = { λ test. test_of test.text.now test.raw };

    ghost invariant = { λ test. Placed test.text.now test.raw };
}

impl<'a> FilterTest<'a> {
    // The name that the test is asked of.
    pub fn name(&self) -> &[u8]
        ensures { self.now.path ≡ name result.now }
    {
        self.text.part(self.raw.at, self.raw.until)
    }

    // Its operator's number.
    pub fn operator(&self) -> u8
        ensures { result ≡ self.now.operator }
    {
        self.raw.operator
    }

    // The bytes of its value, whose escapes are still to be resolved.
    pub fn value(&self) -> ValueBytes<'_>
        ensures value { self.now.value ≡ contents result.escaped result.bytes.now }
        ensures few { length result.bytes.now ≤ 1024 }
    {
        let value = self.raw.value;
        ValueBytes {
            bytes: self.text.part(value.start, value.end),
            escaped: value.escaped,
        }
    }

    // What a function says of its value.
    pub fn of_value<T, F: FnOnce(&[u8]) -> T>(&self, say: F) -> T
        requires { F.IsAlwaysCallable say }
        ensures { (of : List ℕ → T) → ((b : _) (x : T) → F.post say b x → x ≡ of b.now) → result ≡ of self.now.value }
    {
        self.text.of_value(self.raw.value, say)
    }
}

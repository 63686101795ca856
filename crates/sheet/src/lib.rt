// Parameter sheets: blocks of 512 bytes that list the parameters of a catalogue, each with its kind, its bundle and its name. A
// reader asks `Sheet::read` first; the parameters of a sheet are then found by name with `find`, and `kinds` gives their kinds by index.
// A parameter is an item of the block: its tag is its kind (1 string, 2 number, 3 date, 4 token, 5 reference, 6 period, 7 bundle), its
// mark its bundle (0, or a bundle's index plus 1), and its text its name.
#![tactic(auto)]

ghost use Rattle.std.specs.Prelude.{◌≡◌, ℕ, List, ◌≤◌, ◌<◌, length, IfSome, Err, Ok, IfOk, IfErr};
ghost use Rattle.base.specs.Kinds.{kind_number};
ghost use Rattle.sheet.specs.Sheet.{parameter, parameter_count, parameters_of, is_kind, is_parameter, are_parameters, clashes, absent, distinct, kind_at, has_parent, have_parents, are_right, sheet_layout, read_sheet};
ghost use Rattle.block.specs.Walking.{coming};
ghost use Rattle.sheet.specs.Tables.{TableBy};
ghost use Rattle.sheet.specs.Find.{find, enter, kinds_of, parents_of};

use base::kind::Kind;
use base::name::is_name;
use block::{Flaw, Form, Item, Walker};
use std::marker::Model;

// A parameter that is found by its name: its index and its kind.
#[derive(Clone, Copy)]
pub struct Found {
    pub index: u8,
    // by its number, as definitions make it (`found_at`)
    pub kind: u8,
}

// Whether a kind may stand on a sheet: a bundle only on one with bundles.
#[tactic(auto, unfolding(crate::specs::Sheet::is_kind, base::specs::Between::between))]
fn may_stand(marked: bool, kind: Kind) -> bool
    ensures { result ≡ is_kind marked (kind_number kind) }
{
    match kind {
        Kind::Bundle => marked,
        _ => true,
    }
}

// Whether a number is 1 to 6 or, on a sheet with bundles, 7.
#[tactic(auto, using(crate::proofs::Rules::no_kind))]
fn is_kind(marked: bool, kind: u8) -> bool
    ensures { result ≡ is_kind marked kind }
{
    Kind::of(kind).is_some_and(|kind| may_stand(marked, kind))
}

// Whether a kind is right, and a name has at most 30 bytes and is one by the rule.
#[tactic(auto, unfolding(crate::specs::Sheet::is_parameter))]
fn is_parameter(marked: bool, kind: u8, bundle: u8, name: &[u8]) -> bool
    ensures { result ≡ is_parameter marked (parameter kind bundle name.now) }
{
    is_kind(marked, kind) && name.len() <= 30 && is_name(name)
}

// Whether the kinds and the names of the parameters are right.
fn are_parameters(mut parameters: Walker<'_>, marked: bool) -> bool
    ensures { result ≡ are_parameters marked (coming parameter parameters.entry) }
{
    parameters.all(|p| is_parameter(marked, p.tag, p.mark, p.text))
}

// Whether the same name is one too many in the bundles `a` and `c`: "members of different bundles may share a name; no other two
// may".
#[tactic(auto, unfolding(crate::specs::Sheet::clashes))]
fn clashes(a: u8, c: u8, same: bool) -> bool
    ensures { result ≡ clashes a c same }
{
    same && (c == 0 || a == 0 || a == c)
}

// Whether none of the parameters has a name that clashes with this one in the bundle.
fn absent(mut parameters: Walker<'_>, bundle: u8, name: &[u8]) -> bool
    ensures { result ≡ absent bundle name.now (coming parameter parameters.entry) }
{
    parameters.all(|p| !clashes(p.mark, bundle, p.text == name))
}

// Whether no name is twice among the parameters.
fn distinct(mut parameters: Walker<'_>) -> bool
    ensures { result ≡ distinct (coming parameter parameters.entry) }
{
    // no for: `absent` is asked about the walk behind this parameter, which a `for` would hold
    while let Some(p) = parameters.next() {
        if !absent(parameters, p.mark, p.text) {
            return false;
        }
    }
    true
}

// The kind of the parameter with the index, 0 past the last.
fn kind_at(mut parameters: Walker<'_>, index: u8) -> u8
    ensures { result ≡ kind_at index (coming parameter parameters.entry) }
{
    parameters.nth(usize::from(index)).map_or(0, |p| p.tag)
}

// Whether a parameter of this kind stands at the top, or is no bundle and stands in one.
#[tactic(auto, unfolding(crate::specs::Sheet::has_parent))]
fn has_parent(parameters: Walker<'_>, kind: u8, bundle: u8) -> bool
    ensures { result ≡ has_parent (coming parameter parameters.entry) kind bundle }
{
    bundle == 0
        || (kind != Kind::Bundle as u8 && kind_at(parameters, bundle - 1) == Kind::Bundle as u8)
}

// Whether it is so with each of the parameters.
fn have_parents(parameters: Walker<'_>) -> bool
    ensures { result ≡ have_parents (coming parameter parameters.entry) (coming parameter parameters.entry) }
{
    let mut rest = parameters;
    rest.all(|p| has_parent(parameters, p.tag, p.mark))
}

// Whether kinds, names and bundles of the parameters are right.
#[tactic(auto, unfolding(crate::specs::Sheet::are_right))]
fn are_right(parameters: Walker<'_>, marked: bool) -> bool
    ensures { result ≡ are_right marked (coming parameter parameters.entry) }
{
    are_parameters(parameters, marked) && distinct(parameters) && have_parents(parameters)
}

// Whether layout, kinds, names and bundles of 512 bytes are a sheet's.
fn sheet_layout(sheet: &[u8; 512]) -> bool
    ensures { result ≡ sheet_layout sheet.now }
{
    let form = Form {
        plain: 0x50,
        marked: 0x51,
        at: 1,
        most: 32,
    };
    if !block::has_either(sheet, form) {
        return false;
    }
    are_right(
        Walker {
            block: sheet,
            at: 2,
            left: sheet[1],
        },
        block::has_marks(sheet[0]),
    )
}

// A parameter sheet: bytes that are well formed (01: sound). A clause sees the bytes.
#[derive(Drop)]
pub struct Sheet<'a> {
    pub bytes: &'a [u8],
}

impl<'a> Model for Sheet<'a> {
    ghost Value = { List ℕ };

    ghost view = { λ sheet. sheet.bytes.now };

    ghost invariant = { λ sheet. read_sheet sheet.bytes.now ≡ Ok tt };
}

impl<'a> Sheet<'a> {
    // The sheet that any bytes are, or what is wrong with them: the refusals 1, 2 and 3. "Byte 0 is 0x50" or, with bundles, 0x51;
    // "byte 1 the number of parameters, 0 to 32".
    pub fn read(bytes: &'a [u8]) -> Result<Sheet<'a>, Flaw>
        ensures read { IfOk result (λ sheet. (sheet ≡ bytes.now) × (read_sheet bytes.now ≡ Ok tt)) }
        ensures flaw { IfErr result (λ flaw. read_sheet bytes.now ≡ Err flaw) }
    {
        let block = block::check(bytes)?;
        if sheet_layout(block) {
            return Ok(Sheet { bytes });
        }
        Err(Flaw::Layout)
    }

    // How many parameters it has.
    #[tactic(auto, using(crate::proofs::Read::sheet_length), unfolding(crate::specs::Sheet::parameter_count))]
    pub fn parameter_count(&self) -> u8
        ensures { result ≡ parameter_count self.now }
    {
        self.bytes[1]
    }

    // Its parameters. `Card::entries` is alike in shape: another model, and another start, in one literal each.
    #[tactic(auto, using(crate::proofs::Read::sheet_length))]
    fn parameters(&self) -> Walker<'a>
        ensures parameters { coming parameter result ≡ parameters_of self.now }
        ensures most { length (parameters_of self.now) ≤ 32 }
    {
        Walker {
            block: self.bytes,
            at: 2,
            left: self.bytes[1],
        }
    }

    // Index and kind of the parameter that has the name in a bundle: 0 at the top, else the bundle's index plus 1.
    pub fn find(&self, bundle: u8, name: &[u8]) -> Option<Found>
        ensures found { result ≡ find bundle name.now (parameters_of self.now) }
        ensures below { IfSome result (λ found. found.index < 32) }
    {
        for (index, p) in self.parameters().enumerate() {
            if p.mark == bundle && p.text == name {
                return Some(Found {
                    index: index as u8,
                    kind: p.tag,
                });
            }
        }
        None
    }

    // Where names are looked up inside what a name names: a bundle's index plus 1, or the definition's 255 (`nowhere`) where it names none.
    pub fn enter(&self, bundle: u8, name: &[u8]) -> u8
        ensures { result ≡ enter (parameters_of self.now) bundle name.now }
    {
        match self.find(bundle, name) {
            Some(found) if found.kind == Kind::Bundle as u8 => found.index + 1,
            _ => 255,
        }
    }

    // A part of each parameter by its index, and 0 past the last.
    fn table<F: Fn(Item<'_>) -> u8>(&self, part: F) -> [u8; 32]
        requires part_callable { F.IsAlwaysCallable part }
        ensures { TableBy (F.post part) self.now result }
    {
        let mut table = [0u8; 32];
        for (i, p) in self.parameters().enumerate() {
            table[i] = part(p);
        }
        table
    }

    // The kinds of its parameters by their index, and 0 past the last; and what is known of the bytes, which a clause sees alone.
    pub fn kinds(&self) -> [u8; 32]
        ensures kinds { result ≡ kinds_of (parameters_of self.now) }
        ensures well_formed { read_sheet self.now ≡ Ok tt }
    {
        // opens the model, so that its invariant can be told
        let _ = &self.bytes;
        self.table(|p| p.tag)
    }

    // The bundles of its parameters by their index, each the bundle's index plus 1, and 0 at the top and past the last.
    pub fn parents(&self) -> [u8; 32]
        ensures { result ≡ parents_of (parameters_of self.now) }
    {
        self.table(|p| p.mark)
    }
}

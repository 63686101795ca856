// Blocks of 512 bytes, which sheets and cards are: the size, the check sum, numbers of four bytes, and the items that a block lists.
#![tactic(auto)]

mod columns;
mod walker;

ghost use Rattle.std.specs.Prelude.{◌≡◌, ◌&&◌, ◌+◌, ◌≤◌, ◌<◌, length, IfOk, IfErr, Ok, Err};
ghost use Rattle.block.specs.Words.{word};
ghost use Rattle.block.specs.Seal.{check};
ghost use Rattle.block.specs.Items.{zeros, has_marks, laid_out, has_layout, has_either, PlaceAt, LaysOut};
ghost use Rattle.block.specs.Readings.{reading};

pub use columns::check_sum;
use columns::check_sum_to;
pub use walker::{Item, Walker};

// Where an item stands: its first byte, its mark (0 in a block without marks), and where its text starts and ends. The next item starts
// where the text ends.
#[derive(Clone, Copy)]
pub struct Place {
    pub tag: u8,
    pub mark: u8,
    pub start: usize,
    pub end: usize,
}

// How a block begins: with the byte `plain`, or with `marked` where its items have marks; the byte at `at` says how many items follow it,
// `most` or fewer.
#[derive(Clone, Copy)]
pub struct Form {
    pub plain: u8,
    pub marked: u8,
    pub at: usize,
    pub most: u8,
    pub ghost within: { at < 508 },
}

// What is wrong with bytes that are no sheet or no card (01: sound, where nothing is).
#[derive(Clone, Copy)]
pub enum Flaw {
    // Not 512 bytes: refusal 1 of a sheet, 20 of a card.
    Size,
    // The check sum is wrong: refusal 2 of a sheet, 21 of a card.
    Sum,
    // The layout is wrong, or a sheet's names are: refusal 3 of a sheet, 22 of a card.
    Layout,
}

// The number that the four bytes from `at` hold, low byte first.
pub fn word(block: &[u8], at: usize) -> u32
    requires { at + 4 ≤ length block.now }
    ensures { result ≡ word block.now at }
{
    u32::from_le_bytes([block[at], block[at + 1], block[at + 2], block[at + 3]])
}

// The block that bytes are which have its size and, in 508 to 511, its check sum.
pub fn check(bytes: &[u8]) -> Result<&[u8; 512], Flaw>
    ensures block { IfOk result (λ block. (block.now ≡ bytes.now) × (check bytes.now ≡ Ok tt)) }
    ensures flaw { IfErr result (λ flaw. check bytes.now ≡ Err flaw) }
{
    let Ok(block) = <&[u8; 512]>::try_from(bytes) else {
        return Err(Flaw::Size);
    };
    if check_sum(block) != word(block, 508) {
        return Err(Flaw::Sum);
    }
    Ok(block)
}

// Whether every byte is zero. The loop goes on to the end, so that it takes many bytes a turn.
fn zeros(s: &[u8]) -> bool
    ensures { result ≡ zeros s.now }
{
    s.iter().fold(true, |all, b| all & (*b == 0))
}

// Whether the items of a block with this first byte have marks: 0x44 of a card, 0x51 of a sheet.
#[tactic(auto, unfolding(crate::specs::Items::has_marks))]
pub fn has_marks(first: u8) -> bool
    ensures { result ≡ has_marks first }
{
    matches!(first, 0x44 | 0x51)
}

// The place of the item at `at`. No other function knows how an item begins.
pub fn place_at(block: &[u8], at: usize) -> Place
    requires { at + 3 ≤ length block.now }
    ensures { PlaceAt block.now at result }
{
    if has_marks(block[0]) {
        let start = at + 3;
        return Place {
            tag: block[at],
            mark: block[at + 1],
            start,
            end: start + usize::from(block[at + 2]),
        };
    }
    let start = at + 2;
    Place {
        tag: block[at],
        mark: 0,
        start,
        end: start + usize::from(block[at + 1]),
    }
}

// Whether `count` items from `from` on end at or before byte 507, and the bytes from there to 507 are zero.
#[tactic(auto, using(crate::proofs::Items::laid_to_next, crate::proofs::Items::laid_to_end))]
fn laid_out(block: &[u8; 512], from: usize, count: u8) -> Option<usize>
    requires { from ≤ 508 }
    ensures { LaysOut block.now (laid_out count block.now from) result }
{
    let mut at = from;
    for _ in 0..count {
        at = place_at(block, at).end;
        let past = at > 508;
        if past {
            return None;
        }
    }
    zeros(&block[at..508]).then_some(at)
}

// Whether the first byte is `first`, and the items are as many as a form says and they and the padding are laid out.
fn layout_from(block: &[u8; 512], first: u8, form: Form) -> Option<usize>
    ensures { LaysOut block.now (has_layout first form.at form.most block.now) result }
{
    if block[0] != first {
        return None;
    }
    let count = block[form.at];
    if count > form.most {
        return None;
    }
    laid_out(block, form.at + 1, count)
}

// The same with either first byte of a form. It is part of its callers, so that a form is constants there.
#[inline(always)]
fn layout_of(block: &[u8; 512], form: Form) -> Option<usize>
    ensures { LaysOut block.now (has_either form.plain form.marked form.at form.most block.now) result }
{
    layout_from(block, form.plain, form).or_else(|| layout_from(block, form.marked, form))
}

// Whether a block has a form.
pub fn has_either(block: &[u8; 512], form: Form) -> bool
    ensures { result ≡ has_either form.plain form.marked form.at form.most block.now }
{
    layout_of(block, form).is_some()
}

// What a block is: size, then check sum, then layout. The layout is looked at first, since the sum needs to go no further than the items.
pub fn read_block(block: &[u8], form: Form) -> Result<(), Flaw>
    ensures { result ≡ reading (check block.now) (has_either form.plain form.marked form.at form.most block.now) }
{
    let Ok(block) = <&[u8; 512]>::try_from(block) else {
        return Err(Flaw::Size);
    };
    match layout_of(block, form) {
        Some(end) => {
            if check_sum_to(block, end) != word(block, 508) {
                return Err(Flaw::Sum);
            }
            Ok(())
        }
        None => {
            if check_sum(block) != word(block, 508) {
                return Err(Flaw::Sum);
            }
            Err(Flaw::Layout)
        }
    }
}

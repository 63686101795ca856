// The items of a block, one by one.
ghost use Rattle.block.specs.Items.{Walk};

use crate::place_at;

// An item: its first byte, its mark (0 in a block without marks), where its text starts, and the text.
#[derive(Clone, Copy)]
pub struct Item<'a> {
    pub tag: u8,
    pub mark: u8,
    pub start: usize,
    pub text: &'a [u8],
}

// A walk over the items of a block: `left` of them are to come, the first of which stands at `at`.
#[derive(Clone, Copy)]
pub struct Walker<'a> {
    pub block: &'a [u8],
    pub at: usize,
    pub left: u8,
    pub ghost walk: { Walk block.now at left },
}

impl<'a> Iterator for Walker<'a> {
    ghost use Rattle.std.specs.Iterator.{at_most};
    ghost use Rattle.block.specs.Walking.{Walks};

    type Item = Item<'a>;

    ghost next_gives = { Walks };

    ghost remaining = { λ s. at_most s.left };

    fn next(&mut self) -> Option<Item<'a>> {
        if self.left == 0 {
            return None;
        }
        let block = self.block;
        let place = place_at(block, self.at);
        *self = Walker {
            block,
            at: place.end,
            left: self.left - 1,
        };
        Some(Item {
            tag: place.tag,
            mark: place.mark,
            start: place.start,
            text: &block[place.start..place.end],
        })
    }
}

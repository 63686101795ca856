// Cards: blocks of 512 bytes with a record number and entries, each a text under a parameter of the sheet. A reader asks
// `Card::read` first; the record number and the entries of a card are then at hand.
#![tactic(auto)]

ghost use Rattle.std.specs.Prelude.{◌≡◌, ℕ, List, Err, Ok, IfOk, IfErr};
ghost use Rattle.block.specs.Walking.{coming};
ghost use Rattle.card.specs.Card.{entry, record_number, entry_count, entries_of, read_card};

use block::{Flaw, Form, Walker};
use std::marker::Model;

// A card: bytes that are well formed (01: sound). A clause sees the bytes.
#[derive(Drop)]
pub struct Card<'a> {
    pub bytes: &'a [u8],
}

impl<'a> Model for Card<'a> {
    ghost Value = { List ℕ };

    ghost view = { λ card. card.bytes.now };

    ghost invariant = { λ card. read_card card.bytes.now ≡ Ok tt };
}

impl<'a> Card<'a> {
    // The card that any bytes are, or what is wrong with them: the refusals 20, 21 and 22. "Byte 0 is 0x43" or, with occurrences, 0x44;
    // "bytes 1 to 4 the record number, low byte first; byte 5 the number of entries, 0 to 64".
    pub fn read(bytes: &'a [u8]) -> Result<Card<'a>, Flaw>
        ensures read { IfOk result (λ card. (card ≡ bytes.now) × (read_card bytes.now ≡ Ok tt)) }
        ensures flaw { IfErr result (λ flaw. read_card bytes.now ≡ Err flaw) }
    {
        let form = Form {
            plain: 0x43,
            marked: 0x44,
            at: 5,
            most: 64,
        };
        block::read_block(bytes, form)?;
        Ok(Card { bytes })
    }

    // Its record number.
    #[tactic(auto, using(crate::proofs::Read::card_length), unfolding(crate::specs::Card::record_number))]
    pub fn record_number(&self) -> u32
        ensures { result ≡ record_number self.now }
    {
        block::word(self.bytes, 1)
    }

    // How many entries it has.
    #[tactic(auto, using(crate::proofs::Read::card_length), unfolding(crate::specs::Card::entry_count))]
    pub fn entry_count(&self) -> u8
        ensures { result ≡ entry_count self.now }
    {
        self.bytes[5]
    }

    // Its entries. An entry is an item of the block: its tag is the index of its parameter, its mark the number of its occurrence (0 on a
    // card without them), and its text its text.
    #[tactic(auto, using(crate::proofs::Read::card_length))]
    pub fn entries(&self) -> Walker<'a>
        ensures entries { coming entry result ≡ entries_of self.now }
        ensures block { result.block.now ≡ self.now }
        ensures well_formed { read_card self.now ≡ Ok tt }
    {
        Walker {
            block: self.bytes,
            at: 6,
            left: self.bytes[5],
        }
    }
}

// For programs that make blocks and read them: the check sum is written into a block, and the record number read from a card.
#![tactic(auto)]

ghost use Rattle.std.specs.Prelude.{◌≡◌, ◌++◌, ◌%◌, take};
ghost use Rattle.refusal.specs.Answers.{refused, counted_answer};
ghost use Rattle.block.specs.Seal.{HasSize};
ghost use Rattle.block.specs.Words.{word_bytes};
ghost use Rattle.sealing.specs.Sealing.{seal_answer, sealed_bytes, record_answer};

use block::{check_sum, word};
use refusal::{Reason, Refusal};

// What is not 512 bytes is refused.
fn wrong_size() -> Result<u32, Refusal>
    ensures { counted_answer result ≡ refused 20 0 }
{
    Err(Refusal {
        reason: Reason::CardSize,
        place: 0,
    })
}

// Writes a number into the last four bytes of a block, low byte first.
fn put_sum(block: &mut [u8], sum: u32)
    requires { HasSize block.old }
    ensures { block.new ≡ take 508 block.old ++ word_bytes sum }
{
    block[508..].copy_from_slice(&sum.to_le_bytes());
}

// Writes the check sum into a block, and answers it. What is no block stays as it is.
pub fn seal(block: &mut [u8]) -> Result<u32, Refusal>
    ensures result_value { counted_answer result ≡ seal_answer block.old }
    ensures block_after { block.new ≡ sealed_bytes block.old }
{
    let Ok(whole) = <&[u8; 512]>::try_from(&*block) else {
        return wrong_size();
    };
    let sum = check_sum(whole);
    put_sum(block, sum);
    Ok(sum)
}

// The record number of a card.
pub fn record(card: &[u8]) -> Result<u32, Refusal>
    ensures { counted_answer result ≡ record_answer card.now }
{
    if card.len() != 512 {
        return wrong_size();
    }
    Ok(word(card, 1))
}

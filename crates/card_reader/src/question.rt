// What a test asks of a card.
ghost use Rattle.std.specs.Prelude.{◌≡◌, ◌<◌};
ghost use Rattle.judge.specs.Once.{readings_for};

use kind::{Meaning, Readings};

// What a test asks of the texts under a parameter: its index, the test's meaning and value, and what the value reads to.
#[derive(Clone, Copy)]
pub struct Question<'a> {
    pub index: u8,
    pub meaning: Meaning,
    pub value: &'a [u8],
    pub readings: Readings,
    pub ghost low: { index < 32 },
    pub ghost reads: { readings ≡ readings_for meaning value.now },
}

// What a test of the rows asks.
ghost use Rattle.std.specs.Prelude.{◌<◌};
ghost use Rattle.std.proofs.Props.{props};
ghost use Rattle.row_opener.specs.Opening.{Known};

use kind::Meaning;
use row_opener::Opened;
use syntax::FilterText;

// What a test asks of a text: the index of its parameter, its meaning, and its value in a filter's text.
#[derive(Clone, Copy)]
pub struct Asked<'a> {
    pub filter: &'a FilterText<'a>,
    pub index: u8,
    pub meaning: Meaning,
    pub opened: &'a Opened,
    ghost low: { index < 32 },
    ghost known: { Known filter.now meaning opened.now } by { Prim.hlevel props },
}

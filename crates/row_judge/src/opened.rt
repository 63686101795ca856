// Rows with what their values read to.
ghost use Rattle.std.specs.Prelude.{length};
ghost use Rattle.std.proofs.Props.{props};
ghost use Rattle.row_opener.specs.Opening.{Opens};

use crate::StatedRows;
use row_opener::Opened;
use syntax::FilterText;

// Rows over a filter's text that were opened, by the kinds of a sheet: the value of each row stands at its place.
#[derive(Clone, Copy)]
pub struct OpenedRows<'a> {
    pub kinds: &'a [u8; 32],
    pub filter: &'a FilterText<'a>,
    pub rows: &'a StatedRows<'a>,
    pub values: &'a [Option<Opened>],
    pub ghost opens: { Opens kinds.now filter.now rows.now values.now (length rows.now) } by { Prim.hlevel props },
}

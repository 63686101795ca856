// A query as it is judged.
ghost use Rattle.std.specs.Prelude.{length};
ghost use Rattle.query.specs.Within.{within_prop};
ghost use Rattle.query.specs.Rows.{RowsWithin};

use crate::Rows;

// Rows, and the bytes that their names and their texts stand in.
#[derive(Clone, Copy)]
pub struct KeptQuery<'a> {
    pub bytes: &'a [u8],
    pub rows: &'a Rows,
    pub ghost within: { RowsWithin (length bytes.now) rows.now } by { within_prop (length bytes.now) rows.now },
}

// A pair: "each cut at its first "=""; its name and its value decoded.
ghost use Rattle.std.specs.Prelude.{◌≤◌, length};
ghost use Rattle.query.specs.Scan.{PairOf};

use crate::PairLengths;
use crate::decode::decode;

// Writes the name's bytes and the value's, and answers how many; None where there is no "=" or a bad %.
pub fn read_pair(pair: &[u8], name: &mut [u8], value: &mut [u8]) -> Option<PairLengths>
    requires pair_in_bounds { length pair.now ≤ length name.old }
    requires pair_in_bounds_2 { length pair.now ≤ length value.old }
    ensures { PairOf pair.now name.new value.new result }
{
    let cut = base::first_from(pair, 0, b'=');
    if cut >= pair.len() {
        return None;
    }
    let name_len = decode(&pair[..cut], name)?;
    let value_len = decode(&pair[cut + 1..], value)?;
    Some(PairLengths {
        name: name_len,
        value: value_len,
    })
}

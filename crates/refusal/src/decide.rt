// A refusal as an answer.
ghost use Rattle.std.specs.Prelude.{◌≡◌, Err};

use crate::{Reason, Refusal};

// The refusal for a reason, at a place, as the answer of an operation.
pub fn refuse<T>(reason: Reason, place: usize) -> Result<T, Refusal>
    ensures { result ≡ Err (record { reason = reason; place = place }) }
{
    Err(Refusal { reason, place })
}

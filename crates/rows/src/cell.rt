// Cells: what each says.
ghost use Rattle.std.specs.Prelude.{◌≡◌, ◌≤◌};
ghost use Rattle.rows.specs.Cells.{probe_of, row_of};
ghost use Rattle.rows.specs.Shapes.{bit};

use crate::{Probe, Row};
use syntax::Connective;

// 1 for yes.
pub fn bit(fits: bool) -> u32
    ensures { (result ≡ bit fits) × (result ≤ 1) }
{
    if fits {
        return 1;
    }
    0
}

// The test with this number.
pub fn probe_of(number: u32) -> Probe
    ensures { result ≡ probe_of number }
{
    Probe {
        index: (number % 32) as u8,
        operator: (number / 32 % 32) as u8,
        position: (number / 32 / 32) as usize,
    }
}

// What a cell says.
pub fn row_of(cell: u32) -> Row
    ensures { result ≡ row_of cell }
{
    if cell % 8 == 0 {
        return Row::Test(probe_of(cell / 8));
    }
    if cell % 8 == 1 {
        return Row::Bracket((cell / 8) as usize);
    }
    if cell % 8 == 3 {
        return Row::Connect(Connective::And, (cell / 8) as usize);
    }
    if cell % 8 == 4 {
        return Row::Connect(Connective::Or, (cell / 8) as usize);
    }
    if cell == 2 {
        return Row::Not;
    }
    Row::Unknown
}

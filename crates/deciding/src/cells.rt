// The numbers of marks.
ghost use Rattle.std.specs.Prelude.{◌≡◌};
ghost use Rattle.deciding.specs.Marks.{cell_of};

use crate::Mark;

// The number that a cell holds for a mark.
impl From<Mark> for u8 {
    ghost from_gives = { λ mark number. number ≡ cell_of mark };

    fn from(mark: Mark) -> u8 {
        match mark {
            Mark::Spared => 0,
            Mark::Yes => 1,
            Mark::No => 2,
        }
    }
}

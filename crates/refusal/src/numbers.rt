// The numbers of refusal.
ghost use Rattle.std.specs.Prelude.{◌≡◌};
ghost use Rattle.refusal.specs.Answers.{number_of};

use crate::Reason;

// The number that stands for a reason.
impl From<Reason> for u32 {
    ghost from_gives = { λ reason number. number ≡ number_of reason };

    fn from(reason: Reason) -> u32 {
        match reason {
            Reason::SheetSize => 1,
            Reason::SheetSum => 2,
            Reason::SheetLayout => 3,
            Reason::FilterSize => 10,
            Reason::NoFilter => 11,
            Reason::TooDeep => 12,
            Reason::TooMany => 13,
            Reason::UnknownName => 14,
            Reason::Unsupported => 15,
            Reason::NoMeaning => 16,
            Reason::Unreadable => 17,
            Reason::BareBundle => 18,
            Reason::CardSize => 20,
            Reason::CardSum => 21,
            Reason::CardLayout => 22,
            Reason::CardMisfit => 23,
            Reason::ShortList => 30,
            Reason::ShortRows => 31,
            Reason::ShortBuffer => 32,
            Reason::ShortMarks => 33,
            Reason::ShortCells => 34,
            Reason::BadRows => 40,
            Reason::NoPair => 50,
            Reason::ManyAlternatives => 51,
        }
    }
}

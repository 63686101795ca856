// The kinds of parameters, each with the number that a sheet writes for it.
ghost use Rattle.base.specs.Kinds.{KindOf};

#[derive(Clone, Copy)]
pub enum Kind {
    String = 1,
    Number = 2,
    Date = 3,
    Token = 4,
    Reference = 5,
    Period = 6,
    // A bundle has no texts.
    Bundle = 7,
}

impl Kind {
    // The kind that has the number, if one has.
    pub fn of(number: u8) -> Option<Kind>
        ensures { KindOf number result }
    {
        // the one table of the numbers: Rust has no conversion of a number to an enum
        match number {
            1 => Some(Kind::String),
            2 => Some(Kind::Number),
            3 => Some(Kind::Date),
            4 => Some(Kind::Token),
            5 => Some(Kind::Reference),
            6 => Some(Kind::Period),
            7 => Some(Kind::Bundle),
            _ => None,
        }
    }
}

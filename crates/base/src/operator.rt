// The operators, each with its number, in the order of the R4 page's table.
ghost use Rattle.base.specs.Operators.{OperatorOf};

#[derive(Clone, Copy)]
pub enum Operator {
    Eq = 0,
    Ne = 1,
    Co = 2,
    Sw = 3,
    Ew = 4,
    Gt = 5,
    Lt = 6,
    Ge = 7,
    Le = 8,
    Ap = 9,
    Sa = 10,
    Eb = 11,
    Pr = 12,
    Po = 13,
    Ss = 14,
    Sb = 15,
    In = 16,
    Ni = 17,
    Re = 18,
}

impl Operator {
    // How many operators there are: what the number of a cell is tested against.
    pub const COUNT: u8 = 19;

    // The operator that has the number, if one has.
    pub fn of(number: u8) -> Option<Operator>
        ensures { OperatorOf number result }
    {
        // the one table of the numbers: Rust has no conversion of a number to an enum
        match number {
            0 => Some(Operator::Eq),
            1 => Some(Operator::Ne),
            2 => Some(Operator::Co),
            3 => Some(Operator::Sw),
            4 => Some(Operator::Ew),
            5 => Some(Operator::Gt),
            6 => Some(Operator::Lt),
            7 => Some(Operator::Ge),
            8 => Some(Operator::Le),
            9 => Some(Operator::Ap),
            10 => Some(Operator::Sa),
            11 => Some(Operator::Eb),
            12 => Some(Operator::Pr),
            13 => Some(Operator::Po),
            14 => Some(Operator::Ss),
            15 => Some(Operator::Sb),
            16 => Some(Operator::In),
            17 => Some(Operator::Ni),
            18 => Some(Operator::Re),
            _ => None,
        }
    }
}

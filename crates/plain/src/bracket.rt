// Brackets around what is already written: "a bracketed join after and or or keeps one pair".
ghost use Rattle.std.specs.Prelude.{◌+◌, ◌≤◌, length, take};
ghost use Rattle.plain.specs.Plain.{in_round, in_round_if};
ghost use Rattle.base.specs.Writing.{Room, Puts};

// Moves the first bytes to make room for a pair of brackets around them, and answers the length of it all.
fn bracket(count: usize, out: &mut [u8]) -> usize
    requires { count + 2 ≤ length out.old }
    ensures { Puts (in_round (take count out.old)) out.old out.new result }
{
    out.copy_within(0..count, 1);
    out[0] = b'(';
    out[count + 1] = b')';
    count + 2
}

// Puts a pair of brackets around the first bytes where they are a join, and answers the length of it all.
pub fn bracket_join(join: bool, count: usize, out: &mut [u8]) -> usize
    requires count_in_bounds { count ≤ length out.old }
    requires room { Room (in_round_if join (take count out.old)) out.old }
    ensures { Puts (in_round_if join (take count out.old)) out.old out.new result }
{
    if join {
        return bracket(count, out);
    }
    count
}

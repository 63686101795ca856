// The list that a caller lends for the cells of an answer.
ghost use Rattle.std.specs.Prelude.{◌≡◌, ◌++◌, ◌≤◌, length, drop};

// Writes the numbers over the list's first cells.
pub fn write(numbers: &[u32], list: &mut [u32])
    requires { length numbers.now ≤ length list.old }
    ensures { list.new ≡ numbers.now ++ drop (length numbers.now) list.old }
{
    list[..numbers.len()].copy_from_slice(numbers);
}

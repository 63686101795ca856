// The check sum of a block. The 512 bytes are taken as 16 rows of 32 and summed column by column: the sums of a column have 16 bits,
// so that the loop over the columns is compiled to vector instructions of that width. Rows that are known to be zero are left out.
ghost use Rattle.std.specs.Prelude.{◌≡◌, ◌+◌, ◌*◌, ◌≤◌, ◌<◌, true};
ghost use Rattle.base.specs.Parts.{part};
ghost use Rattle.block.specs.Sum.{sum_from, check_sum};
ghost use Rattle.block.specs.Columns.{ColumnAt, ColumnsTo, last_four};
ghost use Rattle.block.specs.Items.{zeros};

// The sums of a column: of its bytes, and of its bytes each times its row, counted from 0.
#[derive(Clone, Copy)]
struct Column {
    sum: u16,
    rows: u16,
}

// The sums of all columns. Two arrays, and no array of Column: with that a block takes 528 instructions in place of 484 (the same loops in C),
// more than 1 in 100 of select on a full card.
#[derive(Clone, Copy)]
struct Columns {
    sums: [u16; 32],
    rows: [u16; 32],
}

// The sums of the column `j`, from the last row to the first. Each row adds the bytes of all rows below it to `rows`, so that a byte
// is added once for each row above it. `j < 32` stays a clause here and in two more: it is the index of a for, and a type of its own for it
// would be made in each loop and taken apart in each function.
fn column_at(block: &[u8; 512], j: usize) -> Column
    requires { j < 32 }
    ensures { ColumnAt block.now 16 j result }
{
    let mut sum: u16 = 0;
    let mut rows: u16 = 0;
    for row in (0..16).rev() {
        rows += sum;
        sum += u16::from(block[32 * row + j]);
    }
    Column { sum, rows }
}

// The sums of all columns.
fn columns_of(block: &[u8; 512]) -> Columns
    ensures { ColumnsTo block.now result.sums result.rows 32 }
{
    let mut sums = [0u16; 32];
    let mut rows = [0u16; 32];
    for j in 0..32 {
        let column = column_at(block, j);
        sums[j] = column.sum;
        rows[j] = column.rows;
    }
    Columns { sums, rows }
}

// What the column `j` adds to the sum over the rows: the place of a byte is 32 times its row, and `j + 1`.
fn column_total(j: usize, sum: u16, rows: u16) -> u32
    requires { j < 32 }
    ensures { (result ≡ 32 * rows + (j + 1) * sum) × (result ≤ 4194304) }
{
    32 * u32::from(rows) + (j as u32 + 1) * u32::from(sum)
}

// What the bytes 508 to 511 add to it.
fn last_four(block: &[u8; 512]) -> u32
    ensures { result ≡ last_four block.now }
{
    let a = u32::from(block[508]);
    let b = u32::from(block[509]);
    let c = u32::from(block[510]);
    let d = u32::from(block[511]);
    509 * a + 510 * b + 511 * c + 512 * d
}

// The sum of the first 508 bytes, each times its place counted from 1.
pub fn check_sum(block: &[u8; 512]) -> u32
    ensures { result ≡ check_sum block.now }
{
    let columns = columns_of(block);
    let mut total: u32 = 0;
    for j in 0..32 {
        total += column_total(j, columns.sums[j], columns.rows[j]);
    }
    total - last_four(block)
}

// The sums of the column `j` in the first four rows.
fn short_column(block: &[u8; 512], j: usize) -> Column
    requires { j < 32 }
    ensures { ColumnAt block.now 4 j result }
{
    let a = u16::from(block[j]);
    let b = u16::from(block[j + 32]);
    let c = u16::from(block[j + 64]);
    let d = u16::from(block[j + 96]);
    Column {
        sum: a + b + c + d,
        rows: b + 2 * c + 3 * d,
    }
}

// The sum of the bytes in the first four rows, each times its place counted from 1.
fn short_sum(block: &[u8; 512]) -> u32
    ensures { result ≡ sum_from 1 (part block.now 0 128) }
{
    let mut total: u32 = 0;
    for j in 0..32 {
        let column = short_column(block, j);
        total += column_total(j, column.sum, column.rows);
    }
    total
}

// The check sum of a block whose bytes from `end` to 507 are zero: rows behind `end` add nothing.
pub fn check_sum_to(block: &[u8; 512], end: usize) -> u32
    requires { zeros (part block.now end 508) ≡ true }
    ensures { result ≡ check_sum block.now }
{
    let short = end <= 128;
    if short {
        return short_sum(block);
    }
    check_sum(block)
}

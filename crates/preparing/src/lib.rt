// Prepare: a sheet and a filter are read, and the rows of the filter are written; the first refusal in the order of the table decides.
#![tactic(auto)]

ghost use Rattle.std.specs.Prelude.{◌≡◌, length};
ghost use Rattle.sheet.specs.Sheet.{parameters_of, read_sheet};
ghost use Rattle.answer.specs.Preparing.{FillsText, Fills, Prepares};

use answer::{accept_sheet, accept_text, write};
use checking::{outcome, read_whole};
use filter::top;
use place::find_failure;
use refusal::{Reason, Refusal};
use row_writer::write_filter;
use sheet::Sheet;

// Writes the rows of a filter on a well-formed sheet into a buffer, which has a cell for each byte of the longest filter.
fn fill_text(sheet: &Sheet<'_>, filter: &[u8], buffer: &mut [u32]) -> Result<usize, Refusal>
    requires buffer_len { length buffer.old ≡ 1024 }
    ensures { FillsText (parameters_of sheet.now) filter.now result buffer.new }
{
    let text = accept_text(filter)?;
    let Some(written) = write_filter(sheet, &text, top(filter), buffer, 0) else {
        return Err(find_failure(filter));
    };
    let gathered = written.outcome;
    read_whole(&text, written.end, gathered.summary.tests)?;
    outcome(gathered.summary).and(Ok(gathered.cells))
}

// The same on any sheet.
pub fn fill(sheet: &[u8], filter: &[u8], buffer: &mut [u32]) -> Result<usize, Refusal>
    requires { length buffer.old ≡ 1024 }
    ensures { Fills sheet.now filter.now result buffer.new }
{
    let sheet = accept_sheet(sheet)?;
    fill_text(&sheet, filter, buffer)
}

// Writes the rows of a filter into the list, from its first cell, and answers how many cells they fill; or why there is no answer, and
// where. Later cells stay, and on a refusal all of them.
pub fn prepare(sheet: &[u8], filter: &[u8], list: &mut [u32]) -> Result<usize, Refusal>
    ensures { Prepares sheet.now filter.now list.old result list.new }
{
    // a refusal writes nothing, so the rows wait here until the last byte is read
    let mut buffer = [0u32; 1024];
    let cells = fill(sheet, filter, &mut buffer)?;
    if cells > list.len() {
        return Err(Refusal {
            reason: Reason::ShortCells,
            place: cells,
        });
    }
    write(&buffer[0..cells], list);
    Ok(cells)
}

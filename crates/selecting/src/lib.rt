// Select: the record numbers of the cards of a run that match.
#![tactic(auto)]

mod asking;

ghost use Rattle.std.specs.Prelude.{◌≡◌, ◌%◌, ◌/◌, ◌≤◌, length};
ghost use Rattle.sheet.specs.Sheet.{parameters_of};
ghost use Rattle.one_card.specs.OneCard.{cells_question};
ghost use Rattle.refusal.specs.Steps.{found};
ghost use Rattle.answer.specs.Operations.{filter_question};
ghost use Rattle.answer.specs.Searching.{search_question};
ghost use Rattle.selecting.specs.Selecting.{Gathers, Selects};

use answer::{Engine, write};
use asking::{Asking, ByRows, BySearch, ByText};
use card::Card;
use checking::check;
use preparing::fill;
use refusal::{Reason, Refusal};
use row_judge::{OpenedRows, WholeRows};
use row_opener::open_rows;
use searching::read_search;
use sheet::Sheet;
use syntax::FilterText;

// Gathers the record numbers of the cards that match in the buffer, until a card is refused.
fn gather<A: Asking>(asking: &mut A, cards: &[u8], buffer: &mut [u32]) -> Result<usize, Refusal>
    requires ready { A.ready asking.old }
    requires cards_len { length cards.now % 512 ≡ 0 }
    requires cards_in_bounds { length cards.now / 512 ≤ length buffer.old }
    requires buffer_len_bound { length buffer.old ≤ 128 }
    ensures { Gathers (A.question asking.old) cards.now result buffer.new }
{
    let mut count = 0;
    for index in 0..cards.len() / 512 {
        let at = 512 * index;
        let card = &cards[at..at + 512];
        let verdict = asking.verdict(card);
        let yes = verdict.map_err(move |reason| Refusal {
            reason,
            place: index,
        })?;
        if yes {
            buffer[count] = Card { bytes: card }.record_number();
            count += 1;
        }
    }
    Ok(count)
}

// Selects from the cards under a question that check has passed.
fn select_cards<A: Asking>(asking: &mut A, cards: &[u8], list: &mut [u32]) -> Result<usize, Refusal>
    requires { A.ready asking.old }
    ensures { Selects (found (A.question asking.old)) cards.now list.old result list.new }
{
    if cards.len() % 512 != 0 {
        return Err(Refusal {
            reason: Reason::CardSize,
            place: 0,
        });
    }
    if cards.len() > 65536 {
        return Err(Refusal {
            reason: Reason::CardSize,
            place: 0,
        });
    }
    // a refusal writes nothing, so the numbers wait here until the last card is judged
    let mut buffer = [0u32; 128];
    let matches = gather(asking, cards, &mut buffer)?;
    if matches > list.len() {
        return Err(Refusal {
            reason: Reason::ShortList,
            place: matches,
        });
    }
    write(&buffer[0..matches], list);
    Ok(matches)
}

// Select by rows, which are opened once for the run, into N values, which are memory of a fixed size.
fn select_in<const N: usize>(
    sheet: &Sheet<'_>,
    filter: &FilterText<'_>,
    rows: &WholeRows<'_>,
    cards: &[u8],
    list: &mut [u32],
) -> Result<usize, Refusal>
    requires room { length rows.now ≤ N }
    requires fixed { N ≤ 320 }
    ensures { Selects (found (cells_question (parameters_of sheet.now) filter.now rows.now)) cards.now list.old result list.new }
{
    let kinds = sheet.kinds();
    let mut values = [None; N];
    open_rows(&kinds, filter, rows.cells, &mut values);
    let opened = OpenedRows {
        kinds: &kinds,
        filter,
        rows: &rows.stated(),
        values: &values,
    };
    let mut asking = ByRows::new(sheet, opened);
    select_cards(&mut asking, cards, list)
}

// Select by rows, into 32 values or 320: those of a few rows take less time to clear.
fn select_rows(
    sheet: &Sheet<'_>,
    filter: &FilterText<'_>,
    rows: &WholeRows<'_>,
    cards: &[u8],
    list: &mut [u32],
) -> Result<usize, Refusal>
    ensures { Selects (found (cells_question (parameters_of sheet.now) filter.now rows.now)) cards.now list.old result list.new }
{
    if rows.cells.len() <= 32 {
        return select_in::<32>(sheet, filter, rows, cards, list);
    }
    select_in::<320>(sheet, filter, rows, cards, list)
}

// Select by the rows of the filter, which are written once for the run.
fn select_by_rows(
    sheet: &[u8],
    filter: &[u8],
    cards: &[u8],
    list: &mut [u32],
) -> Result<usize, Refusal>
    ensures { Selects (filter_question sheet.now filter.now) cards.now list.old result list.new }
{
    // fixed memory, for the rows of the longest filter
    let mut cells = [0u32; 1024];
    let filled = fill(sheet, filter, &mut cells)?;
    let sheet = Sheet { bytes: sheet };
    let filter = FilterText { bytes: filter };
    let rows = WholeRows {
        cells: &cells[0..filled],
    };
    select_rows(&sheet, &filter, &rows, cards, list)
}

// Select by the filter's text, which is read again for each card.
fn select_by_text(
    sheet: &[u8],
    filter: &[u8],
    cards: &[u8],
    list: &mut [u32],
) -> Result<usize, Refusal>
    ensures { Selects (filter_question sheet.now filter.now) cards.now list.old result list.new }
{
    check(sheet, filter)?;
    let sheet = Sheet { bytes: sheet };
    let filter = FilterText { bytes: filter };
    let mut asking = ByText::new(&sheet, &filter);
    select_cards(&mut asking, cards, list)
}

// Writes the record numbers of the cards that match into the list, from its first cell, in card order and with repeats, and
// answers how many; or why there is no answer, and where. Later cells stay, and on a refusal all of them.
pub fn select_by(
    engine: Engine,
    sheet: &[u8],
    filter: &[u8],
    cards: &[u8],
    list: &mut [u32],
) -> Result<usize, Refusal>
    ensures { Selects (filter_question sheet.now filter.now) cards.now list.old result list.new }
{
    // two ways through two functions: no step is switched on inside a loop
    match engine {
        Engine::Rows => select_by_rows(sheet, filter, cards, list),
        Engine::Text => select_by_text(sheet, filter, cards, list),
    }
}

// Writes the record numbers of the cards that match into the list, as select by a filter does.
pub fn select_search(
    sheet: &[u8],
    text: &[u8],
    cards: &[u8],
    list: &mut [u32],
) -> Result<usize, Refusal>
    ensures { Selects (search_question sheet.now text.now) cards.now list.old result list.new }
{
    // fixed memory, for the longest search string
    let mut bytes = [0u8; 1024];
    let rows = read_search(sheet, text, &mut bytes)?;
    let sheet = Sheet { bytes: sheet };
    let mut asking = BySearch::new(&sheet, &bytes, rows);
    select_cards(&mut asking, cards, list)
}

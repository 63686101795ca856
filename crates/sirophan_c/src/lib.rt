// The operations for C: include/sirophan.h declares them. No enum crosses to C, so a struct of numbers stands for an answer.
#![tactic(auto)]

ghost use Rattle.std.specs.Prelude.{◌≡◌, length};
ghost use Rattle.answer.specs.Operations.{check_answer, match_answer, select_answer, select_cells};
ghost use Rattle.sirophan.specs.Spelling.{spell_answer, spell_bytes};
ghost use Rattle.answer.specs.Searching.{check_search_answer, match_search_answer, select_search_answer, select_search_cells};
ghost use Rattle.answer.specs.Preparing.{prepare_answer, prepare_cells, judge_answer};
ghost use Rattle.explain.specs.Operation.{explain_answer, explain_cells};
ghost use Rattle.report.specs.Operation.{reported_answer};
ghost use Rattle.sealing.specs.Sealing.{seal_answer, sealed_bytes, record_answer};
ghost use Rattle.answers_c.specs.Answers.{c_answer};
ghost use Rattle.sirophan_c.specs.Answers.{c_counts};
ghost use Rattle.sirophan_c.specs.Operations.{TellsReport};
ghost use Rattle.sirophan_c.specs.Engines.{engine_of};

use answers_c::Answer;
use refusal::Refusal;
use report::{Tally, Verdicts};
use sirophan::Engine;

// What a report answers: the number of the refusal, 0 where there is none, and its place; and how many cards say yes, and how many no.
#[repr(C)]
#[derive(Clone, Copy)]
pub struct Counts {
    pub refusal: u32,
    pub place: usize,
    pub yes: usize,
    pub no: usize,
}

// How many tests the filter has, or a refusal.
#[unsafe(no_mangle)]
pub extern "C" fn sirophan_check(sheet: &[u8], filter: &[u8]) -> Answer
    ensures { result ≡ c_answer (check_answer sheet.now filter.now) }
{
    Answer::from(sirophan::check(sheet, filter))
}

// Whether the card matches the filter, or a refusal.
#[unsafe(no_mangle)]
pub extern "C" fn sirophan_match(sheet: &[u8], filter: &[u8], card: &[u8]) -> Answer
    ensures { result ≡ c_answer (match_answer sheet.now filter.now card.now) }
{
    Answer::from(sirophan::match_card(sheet, filter, card))
}

// The same by the filter's text, without rows.
#[unsafe(no_mangle)]
pub extern "C" fn sirophan_match_by_text(sheet: &[u8], filter: &[u8], card: &[u8]) -> Answer
    ensures { result ≡ c_answer (match_answer sheet.now filter.now card.now) }
{
    Answer::from(sirophan::match_by_text(sheet, filter, card))
}

// How many cards of the run match the filter, with their record numbers in the list from its first cell on, or a refusal.
#[unsafe(no_mangle)]
pub extern "C" fn sirophan_select(
    sheet: &[u8],
    filter: &[u8],
    cards: &[u8],
    list: &mut [u32],
) -> Answer
    ensures value { result ≡ c_answer (select_answer sheet.now filter.now cards.now (length list.old)) }
    ensures list_after { list.new ≡ select_cells sheet.now filter.now cards.now list.old }
{
    Answer::from(sirophan::select(sheet, filter, cards, list))
}

// The engine of a number: no enum crosses to C.
#[tactic(auto, unfolding(crate::specs::Engines::engine_of))]
fn engine_of(number: u32) -> Engine
    ensures { result ≡ engine_of number }
{
    if number == 1 {
        return Engine::Text;
    }
    Engine::Rows
}

// The same by the engine of the number.
#[unsafe(no_mangle)]
pub extern "C" fn sirophan_select_by(
    engine: u32,
    sheet: &[u8],
    filter: &[u8],
    cards: &[u8],
    list: &mut [u32],
) -> Answer
    ensures value { result ≡ c_answer (select_answer sheet.now filter.now cards.now (length list.old)) }
    ensures list_after { list.new ≡ select_cells sheet.now filter.now cards.now list.old }
{
    let by = engine_of(engine);
    Answer::from(sirophan::select_by(by, sheet, filter, cards, list))
}

// How many alternatives the search string has, or a refusal.
#[unsafe(no_mangle)]
pub extern "C" fn sirophan_check_search(sheet: &[u8], text: &[u8]) -> Answer
    ensures { result ≡ c_answer (check_search_answer sheet.now text.now) }
{
    Answer::from(sirophan::check_search(sheet, text))
}

// Whether the card matches the search string, or a refusal.
#[unsafe(no_mangle)]
pub extern "C" fn sirophan_match_search(sheet: &[u8], text: &[u8], card: &[u8]) -> Answer
    ensures { result ≡ c_answer (match_search_answer sheet.now text.now card.now) }
{
    Answer::from(sirophan::match_search(sheet, text, card))
}

// How many cards of the run match the search string, with their record numbers in the list from its first cell on, or a refusal.
#[unsafe(no_mangle)]
pub extern "C" fn sirophan_select_search(
    sheet: &[u8],
    text: &[u8],
    cards: &[u8],
    list: &mut [u32],
) -> Answer
    ensures value { result ≡ c_answer (select_search_answer sheet.now text.now cards.now (length list.old)) }
    ensures list_after { list.new ≡ select_search_cells sheet.now text.now cards.now list.old }
{
    Answer::from(sirophan::select_search(sheet, text, cards, list))
}

// The length of the filter's plain spelling, which stands in the buffer from the place on, or a refusal.
#[unsafe(no_mangle)]
pub extern "C" fn sirophan_spell(filter: &[u8], buffer: &mut [u8], from: usize) -> Answer
    ensures value { result ≡ c_answer (spell_answer filter.now from (length buffer.old)) }
    ensures buffer_after { buffer.new ≡ spell_bytes filter.now from buffer.old }
{
    Answer::from(sirophan::spell(filter, buffer, from))
}

// How many cells the rows of the filter fill, with the rows in the list from its first cell on, or a refusal.
#[unsafe(no_mangle)]
pub extern "C" fn sirophan_prepare(sheet: &[u8], filter: &[u8], list: &mut [u32]) -> Answer
    ensures value { result ≡ c_answer (prepare_answer sheet.now filter.now (length list.old)) }
    ensures list_after { list.new ≡ prepare_cells sheet.now filter.now list.old }
{
    Answer::from(sirophan::prepare(sheet, filter, list))
}

// Whether the card matches what the rows state, or a refusal.
#[unsafe(no_mangle)]
pub extern "C" fn sirophan_judge(sheet: &[u8], filter: &[u8], rows: &[u32], card: &[u8]) -> Answer
    ensures { result ≡ c_answer (judge_answer sheet.now filter.now rows.now card.now) }
{
    Answer::from(sirophan::judge(sheet, filter, rows, card))
}

// Whether the card matches the filter, with a cell for each test in the cells from the first on, or a refusal.
#[unsafe(no_mangle)]
pub extern "C" fn sirophan_explain(
    sheet: &[u8],
    filter: &[u8],
    card: &[u8],
    cells: &mut [u8],
) -> Answer
    ensures value { result ≡ c_answer (explain_answer sheet.now filter.now card.now (length cells.old)) }
    ensures cells_after { cells.new ≡ explain_cells sheet.now filter.now card.now cells.old }
{
    Answer::from(explain::explain(sheet, filter, card, cells))
}

// The answer of a report.
impl From<Result<Verdicts, Refusal>> for Counts {
    ghost from_gives = { λ reported counts. counts ≡ c_counts (reported_answer reported) };

    #[tactic(auto, unfolding(crate::specs::Answers::c_counts, report::specs::Operation::reported_answer, refusal::specs::Answers::refusal_answer))]
    fn from(reported: Result<Verdicts, Refusal>) -> Counts {
        match reported {
            Ok(verdicts) => Counts {
                refusal: 0,
                place: 0,
                yes: verdicts.yes,
                no: verdicts.no,
            },
            Err(refusal) => Counts {
                refusal: u32::from(refusal.reason),
                place: refusal.place,
                yes: 0,
                no: 0,
            },
        }
    }
}

// How many cards of the run say yes and how many no, with a row for each parameter in the rows from the first on, or a refusal.
#[unsafe(no_mangle)]
pub extern "C" fn sirophan_report(
    sheet: &[u8],
    filter: &[u8],
    cards: &[u8],
    rows: &mut [Tally],
) -> Counts
    ensures { TellsReport sheet.now filter.now cards.now rows.old result rows.new }
{
    Counts::from(report::report(sheet, filter, cards, rows))
}

// The check sum of the block, which stands in its last four bytes, or a refusal.
#[unsafe(no_mangle)]
pub extern "C" fn sirophan_seal(block: &mut [u8]) -> Answer
    ensures value { result ≡ c_answer (seal_answer block.old) }
    ensures block_after { block.new ≡ sealed_bytes block.old }
{
    Answer::from(sealing::seal(block))
}

// The record number of the card, or a refusal.
#[unsafe(no_mangle)]
pub extern "C" fn sirophan_record(card: &[u8]) -> Answer
    ensures { result ≡ c_answer (record_answer card.now) }
{
    Answer::from(sealing::record(card))
}

// Check and match by a search string. Its alternatives are kept in rows over a buffer of decoded bytes, once for all cards.
#![tactic(auto)]

ghost use Rattle.std.specs.Prelude.{◌≡◌, ℕ, ◌≤◌, length};
ghost use Rattle.sheet.specs.Sheet.{parameters_of, read_sheet};
ghost use Rattle.sheet.specs.Find.{kinds_of};
ghost use Rattle.answer.specs.Passing.{card_verdict};
ghost use Rattle.one_card.specs.OneCard.{verdict_step};
ghost use Rattle.answer.specs.Searching.{check_search_answer, match_search_answer};
ghost use Rattle.searching.specs.SearchPassing.{rows_question, PassesRows, ReadsRows};
ghost use Rattle.refusal.specs.Answers.{counted_answer, matched_answer};

use answer::accept_sheet;
use one_card::{accept_card, answered};
use query::{KeptQuery, Rows, accept_query};
use refusal::{Reason, Refusal};
use search::{first_fault, rows_say};
use sheet::Sheet;

// Passes the rows of a search string on a well-formed sheet, where none of their alternatives is refused.
fn check_rows(sheet: &Sheet<'_>, asked: KeptQuery<'_>) -> Result<Rows, Refusal>
    ensures { PassesRows (parameters_of sheet.now) asked.entry.bytes.now asked.entry.rows.now result }
{
    first_fault(sheet, asked)?;
    Ok(*asked.rows)
}

// Reads a sheet and a search string: the rows, over the bytes that are written into the buffer, where check passes it; or its refusal.
pub fn read_search(sheet: &[u8], text: &[u8], bytes: &mut [u8]) -> Result<Rows, Refusal>
    requires { 1024 ≤ length bytes.old }
    ensures { ReadsRows sheet.now text.now bytes.new result }
{
    let sheet = accept_sheet(sheet)?;
    let rows = accept_query(text, bytes)?;
    check_rows(&sheet, KeptQuery { bytes, rows: &rows })
}

// How many alternatives a search string has, where each has a meaning on every card that fits the sheet; or why not, and where.
pub fn check_search(sheet: &[u8], text: &[u8]) -> Result<usize, Refusal>
    ensures { counted_answer result ≡ check_search_answer sheet.now text.now }
{
    // fixed memory, for the longest search string; so in match_search
    let mut bytes = [0u8; 1024];
    let read = read_search(sheet, text, &mut bytes)?;
    Ok(read.count)
}

// The verdict on a card, or why it is refused; `kinds` are those of the sheet.
pub fn judge_by_search(
    sheet: &Sheet<'_>,
    kinds: &[u8],
    asked: KeptQuery<'_>,
    card: &[u8],
) -> Result<bool, Reason>
    requires { kinds.now ≡ kinds_of (parameters_of sheet.now) }
    ensures { (i : ℕ) → verdict_step result i ≡ card_verdict (rows_question (parameters_of sheet.now) asked.entry.bytes.now asked.entry.rows.now) i card.now }
{
    let card = accept_card(kinds, card)?;
    Ok(rows_say(sheet, &card, asked))
}

// Whether a card matches a search string on a sheet, or why there is no answer, and where.
pub fn match_search(sheet: &[u8], text: &[u8], card: &[u8]) -> Result<bool, Refusal>
    ensures { matched_answer result ≡ match_search_answer sheet.now text.now card.now }
{
    let mut bytes = [0u8; 1024];
    let rows = read_search(sheet, text, &mut bytes)?;
    let sheet = Sheet { bytes: sheet };
    let kinds = sheet.kinds();
    let asked = KeptQuery {
        bytes: &bytes,
        rows: &rows,
    };
    answered(judge_by_search(&sheet, &kinds, asked, card))
}

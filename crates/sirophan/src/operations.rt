// The operations, with all that is promised of each: the answer of its definition, refused exactly where a line of the table of
// refusals decides. A slice holds bytes, so that nothing is asked of the caller.
ghost use Rattle.sirophan.specs.Operations.{Checks, Matches, SelectsInto, SpellsInto, ChecksSearch, MatchesSearch, SelectsSearchInto, PreparesInto, Judges};

use answer::Engine;
use refusal::Refusal;

// How many tests a filter has, where each has a meaning on every card that fits the sheet.
pub fn check(sheet: &[u8], filter: &[u8]) -> Result<usize, Refusal>
    ensures { Checks sheet.now filter.now result }
{
    checking::check(sheet, filter)
}

// Whether a card matches a filter. (`match` is a word of the language.)
pub fn match_card(sheet: &[u8], filter: &[u8], card: &[u8]) -> Result<bool, Refusal>
    ensures { Matches sheet.now filter.now card.now result }
{
    matching::match_card(sheet, filter, card)
}

// The same by the filter's text, without rows: slower, and to be held against match.
pub fn match_by_text(sheet: &[u8], filter: &[u8], card: &[u8]) -> Result<bool, Refusal>
    ensures { Matches sheet.now filter.now card.now result }
{
    matching::match_by_text(sheet, filter, card)
}

// Writes the record numbers of the matching cards of a run into the list, in card order, and answers how many they are, by either engine.
pub fn select_by(
    engine: Engine,
    sheet: &[u8],
    filter: &[u8],
    cards: &[u8],
    list: &mut [u32],
) -> Result<usize, Refusal>
    ensures { SelectsInto sheet.now filter.now cards.now list.old result list.new }
{
    selecting::select_by(engine, sheet, filter, cards, list)
}

// The same by rows.
pub fn select(sheet: &[u8], filter: &[u8], cards: &[u8], list: &mut [u32]) -> Result<usize, Refusal>
    ensures { SelectsInto sheet.now filter.now cards.now list.old result list.new }
{
    select_by(Engine::Rows, sheet, filter, cards, list)
}

// Puts the plain spelling of a filter into the buffer from a place on, and answers its length.
pub fn spell(filter: &[u8], buffer: &mut [u8], from: usize) -> Result<usize, Refusal>
    ensures { SpellsInto filter.now from buffer.old result buffer.new }
{
    spell::spell(filter, buffer, from)
}

// How many alternatives a search string has, where each has a meaning on every card that fits the sheet.
pub fn check_search(sheet: &[u8], text: &[u8]) -> Result<usize, Refusal>
    ensures { ChecksSearch sheet.now text.now result }
{
    searching::check_search(sheet, text)
}

// Whether a card matches a search string.
pub fn match_search(sheet: &[u8], text: &[u8], card: &[u8]) -> Result<bool, Refusal>
    ensures { MatchesSearch sheet.now text.now card.now result }
{
    searching::match_search(sheet, text, card)
}

// Writes the record numbers of the cards of a run that match a search string into the list, in card order, and answers how many they are.
pub fn select_search(
    sheet: &[u8],
    text: &[u8],
    cards: &[u8],
    list: &mut [u32],
) -> Result<usize, Refusal>
    ensures { SelectsSearchInto sheet.now text.now cards.now list.old result list.new }
{
    selecting::select_search(sheet, text, cards, list)
}

// Writes the rows of a filter into the list, for judge, and answers how many cells they fill.
pub fn prepare(sheet: &[u8], filter: &[u8], list: &mut [u32]) -> Result<usize, Refusal>
    ensures { PreparesInto sheet.now filter.now list.old result list.new }
{
    preparing::prepare(sheet, filter, list)
}

// Whether a card matches what rows state: for rows that prepare has written of the same sheet and filter, whether it matches the
// filter. Other rows are tested like any input.
pub fn judge(sheet: &[u8], filter: &[u8], rows: &[u32], card: &[u8]) -> Result<bool, Refusal>
    ensures { Judges sheet.now filter.now rows.now card.now result }
{
    matching::judge(sheet, filter, rows, card)
}

// What is decided of an alternative on a sheet, whatever the card.
ghost use Rattle.std.specs.Prelude.{◌≡◌, length};
ghost use Rattle.sheet.specs.Sheet.{parameters_of};
ghost use Rattle.sheet.specs.Find.{find};
ghost use Rattle.search.specs.Meaning.{text_fault, fault_at, alternative_fault, first_alternative_fault};
ghost use Rattle.query.specs.Rows.{alternative_in, alternatives_in, RowWithin};

use crate::asked::asked_of;
use base::kind::Kind;
use query::{KeptQuery, Row};
use refusal::{Reason, Refusal, refuse};
use sheet::{Found, Sheet};

// What is decided of a text under a kind, at the place of its pair: 16 or 17.
fn text_fault(kind: u8, split: usize, text: &[u8], place: usize) -> Result<(), Refusal>
    ensures { result ≡ text_fault kind split text.now place }
{
    if kind == Kind::Token as u8 {
        if token::readable_at(text, split) {
            return Ok(());
        }
        return refuse(Reason::Unreadable, place);
    }
    let asked = asked_of(kind, text);
    let skip = asked.skip;
    judge::kind_fault(asked.operator, kind, &text[skip..], place)
}

// The same under a name, on a well-formed sheet: "14 (bundles and members too)".
fn fault_at(
    sheet: &Sheet<'_>,
    name: &[u8],
    split: usize,
    text: &[u8],
    place: usize,
) -> Result<(), Refusal>
    ensures { result ≡ fault_at (find 0 name.now (parameters_of sheet.now)) split text.now place }
{
    match sheet.find(0, name) {
        Some(found) if found.kind != Kind::Bundle as u8 => {
            text_fault(found.kind, split, text, place)
        }
        _ => refuse(Reason::UnknownName, place),
    }
}

// What is decided of the alternative that a row keeps.
fn row_fault(sheet: &Sheet<'_>, bytes: &[u8], row: Row) -> Result<(), Refusal>
    requires row_within { RowWithin (length bytes.now) row }
    ensures { result ≡ alternative_fault (parameters_of sheet.now) (alternative_in bytes.now row) }
{
    let name = row.name;
    let until = row.until;
    let text = row.text;
    let end = row.end;
    fault_at(
        sheet,
        &bytes[name..until],
        row.split,
        &bytes[text..end],
        row.at,
    )
}

// What the first alternative of a query that is refused comes to: the first byte of its pair is its place.
pub fn first_fault(sheet: &Sheet<'_>, asked: KeptQuery<'_>) -> Result<(), Refusal>
    ensures { result ≡ first_alternative_fault (parameters_of sheet.now) (alternatives_in asked.entry.bytes.now asked.entry.rows.now) }
{
    for row in &asked.rows.rows[..asked.rows.count] {
        row_fault(sheet, asked.bytes, *row)?;
    }
    Ok(())
}

// The sheet and the filter's text that any bytes are, for every operation.
ghost use Rattle.std.specs.Prelude.{◌≡◌, List, Err, Ok, IfOk, IfErr};
ghost use Rattle.sheet.specs.Sheet.{Parameter, read_sheet};
ghost use Rattle.refusal.specs.Answers.{number_of};
ghost use Rattle.refusal.specs.Steps.{found, stop, refusal_step};
ghost use Rattle.answer.specs.Operations.{sheet_step, accept_sheet};
ghost use Rattle.answer.specs.Preparing.{accept_size};

use block::Flaw;
use refusal::{Reason, Refusal};
use sheet::Sheet;
use syntax::FilterText;

// What is told of bytes that are no sheet: 1, 2 and 3.
fn sheet_reason(flaw: Flaw) -> Reason
    ensures { (ps : List Parameter) → sheet_step (Err flaw) ps ≡ stop (number_of result) 0 }
{
    match flaw {
        Flaw::Size => Reason::SheetSize,
        Flaw::Sum => Reason::SheetSum,
        Flaw::Layout => Reason::SheetLayout,
    }
}

// The sheet, or its refusal.
#[tactic(auto, unfolding(crate::specs::Operations::accept_sheet))]
pub fn accept_sheet(bytes: &[u8]) -> Result<Sheet<'_>, Refusal>
    ensures accepted { IfOk result (λ sheet. (sheet ≡ bytes.now) × (read_sheet bytes.now ≡ Ok tt)) }
    ensures refused { IfErr result (λ refusal. accept_sheet bytes.now ≡ refusal_step refusal) }
{
    Sheet::read(bytes).map_err(|flaw| Refusal {
        reason: sheet_reason(flaw),
        place: 0,
    })
}

// The filter's text, or its refusal: 10.
#[tactic(auto, unfolding(crate::specs::Preparing::accept_size))]
pub fn accept_text(bytes: &[u8]) -> Result<FilterText<'_>, Refusal>
    ensures accepted { IfOk result (λ text. (text ≡ bytes.now) × (accept_size bytes.now ≡ found tt)) }
    ensures refused { IfErr result (λ refusal. accept_size bytes.now ≡ refusal_step refusal) }
{
    FilterText::read(bytes).ok_or(Refusal {
        reason: Reason::FilterSize,
        place: 0,
    })
}

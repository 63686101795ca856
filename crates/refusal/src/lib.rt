// Refusals: why an operation gives no answer, and where, with the numbers of document 01's table.
#![tactic(auto)]

mod decide;
mod numbers;

pub use decide::refuse;

// Why an operation refuses, in the order of the numbers of refusal.
// No arm stands for nothing: what passes is an Ok, and these are its errors.
#[derive(Clone, Copy)]
pub enum Reason {
    // 1: the sheet is not 512 bytes.
    SheetSize,
    // 2: the sheet's check sum is wrong.
    SheetSum,
    // 3: the sheet breaks its layout, or the rules for its names or bundles.
    SheetLayout,
    // 10: the filter is empty or over 1,024 bytes.
    FilterSize,
    // 11: the text is no filter by the grammar.
    NoFilter,
    // 12: no filter, and only the limit on nesting ends its longest beginning; 13: only the limit on tests does.
    TooDeep,
    TooMany,
    // 14: a test's name is not on the sheet, or is none where it stands, as a member's without its bundle.
    UnknownName,
    // 15: a test's operator is ap, ss, sb, in or ni.
    Unsupported,
    // 16: another operator without a meaning for the kind.
    NoMeaning,
    // 17: a test's value is unreadable.
    Unreadable,
    // 18: a bundle's name with no bracket; ranks between 14 and 15.
    BareBundle,
    // 20: match: the card is not 512 bytes; select: no whole number of blocks, or over 128.
    CardSize,
    // 21: a card's check sum is wrong.
    CardSum,
    // 22: a card breaks its layout.
    CardLayout,
    // 23: a card is well formed but does not conform to the sheet.
    CardMisfit,
    // 30: the list is shorter than the matches.
    ShortList,
    // 31: the rows are fewer than the parameters.
    ShortRows,
    // 32: the plain spelling would run past the buffer's end.
    ShortBuffer,
    // 33: the list has fewer cells than the filter has tests.
    ShortMarks,
    // 34: the list is shorter than the rows of a filter.
    ShortCells,
    // 40: the rows are not good.
    BadRows,
    // 50: a part of a search string is no pair: it has a bad % or no "="; 51: a search string has more than 32 alternatives.
    NoPair,
    ManyAlternatives,
}

// A refusal: why, and where. The place is the length of the longest beginning that also begins some filter, a test's or a pair's first
// byte, a card's index, the number of matches, of rows, of tests or of cells needed, the length of the plain spelling, or 0.
#[derive(Clone, Copy)]
pub struct Refusal {
    pub reason: Reason,
    pub place: usize,
}

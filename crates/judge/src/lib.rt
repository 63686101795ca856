// Tests judged on a sheet and on a card: a test's fault, whether a card conforms to a sheet, what a test says of a card.
#![tactic(auto)]

mod faults;
mod placed;
mod sets;
mod values;
mod verdicts;

pub use faults::{has_meaning, kind_fault};
pub use placed::{member_counts, member_truth, test_fault, test_found, test_says};
pub use sets::{conforms, is_under, some_counts};
pub use values::{counts_read, readings_for};
pub use verdicts::{says_of, some_says};

// Which entries of a card count: those of one occurrence, or where it is None all.
pub type Chosen = Option<u8>;

// Rows that were opened, judged on cards without reading the filter again.
#![tactic(auto)]

mod asked;
mod asks;
mod fitting;
mod once;
mod opened;
mod says;
mod whole;

pub use asks::lend_for;
pub use fitting::FittingCard;
pub use once::say_once;
pub use opened::OpenedRows;
pub use says::rows_say;
pub use whole::{StatedRows, WholeRows};

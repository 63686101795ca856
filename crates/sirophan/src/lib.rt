// Sirophan: which cards of an archive match a filter or a search string. It either has a meaning on every card that fits the sheet,
// and is answered exactly, or is refused with a number and a place.
#![tactic(auto)]

mod operations;

pub use answer::Engine;
pub use operations::{
    check, check_search, judge, match_by_text, match_card, match_search, prepare, select,
    select_by, select_search, spell,
};

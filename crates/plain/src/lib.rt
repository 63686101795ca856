// The plain spelling of a filter's values and tests, and of the brackets around a join.
#![tactic(auto)]

mod bracket;
mod test;
mod value;

pub use bracket::bracket_join;
pub use test::write_test;

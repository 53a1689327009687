//! The line that reports a verdict of `check_verdict::check`.
#![tactic(auto)]

mod laws;
mod verdict;

pub use laws::{answers_have_one_line, rows_hold};
pub use verdict::report;

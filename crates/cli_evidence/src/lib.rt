//! What the commands about evidence records (RFC 4998) do: what `evidence check` and `evidence questions` print of a
//! record, and how these and those that make and renew records (`cli_making`, `cli_renewing`,
//! `cli_rehashing`) end.
#![tactic(auto)]

mod check;
mod questions;
mod running;
mod stated;
mod under;

pub use questions::record_questions_by;
pub use running::run;

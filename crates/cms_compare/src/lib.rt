//! Whether two signatures sign the same: of two files one signer each, what they signed, and the contents (RFC 5652
//! 5.4). Decision 120 of `docs/DECISIONS.md`.
#![tactic(auto)]

mod compared;
mod comparing;
mod fault;
mod laws;

pub use compared::Compared;
pub use comparing::compare;
pub use fault::{CompareFault, CompareRule, Which};
pub use laws::{comparisons_are_judged, rows_hold};

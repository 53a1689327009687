//! What holds of what an evidence record shows (RFC 4998, 3.3 and 5.3), and of how it is refused. The laws are in
//! `specs/Laws.antt`, and what they are about in `check_evidence`. There is no code here except the laws.
#![tactic(auto)]

mod laws;

pub use laws::{evidence_rows_hold, groups_are_shown, records_are_judged};

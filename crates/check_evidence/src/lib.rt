//! Judging evidence records (RFC 4998): the definitions of what a record shows, and how it is refused, and their laws.
//! Begin with `specs/Showing.antt`.
#![tactic(auto)]

mod covered;
mod covering;
mod hashing;
mod laws;
mod list_root;
mod list_tests;
mod rules;
mod search;
mod sorting;

pub use covered::Covered;
pub use covering::{covered_after, covered_later, digest_of_both, digest_of_chains};
pub use hashing::{group_of, group_with, is_ascending};
pub use laws::{evidence_rules_hold, records_are_judged, roots_are_unique};
pub use list_root::{has_first, root_of, root_of_lists};
pub use list_tests::{are_covered, has_no_others, have_lengths};
pub use rules::{EvidenceRefused, RecordRule, StampRule};

//! Worked rows over the grammar of the profile, positive and negative: there is no code to run. They are in a crate of
//! their own, which no other depends on. Decision 127 of `docs/DECISIONS.md`.
#![tactic(auto)]

mod laws;

pub use laws::profile_rows_hold;

//! Worked rows of the checker, over the definitions of `check_verdict`: there is no code to run. They are in a crate of
//! their own, so that a change of the checker's code doesn't cause them to be proved again.
#![tactic(auto)]

mod laws;

pub use laws::verdict_rows_hold;

//! The grammar of the profile as data (RFC 5652, RFC 5280, RFC 3161, RFC 2634, RFC 5035), its object identifiers, and
//! the octets that worked rows are about. There is no code to run.
//!
//! Begin with `specs/Table.antt`. `der_core` says what a form means: which octets encode it, and which faults octets
//! have. Worked rows over the table are in the crate `der_grammar_rows`, so a change of one of them doesn't cause
//! anything above the table to be proved again.
#![tactic(auto)]

mod laws;

pub use laws::table_is_clear;

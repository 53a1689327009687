//! The check of a signed file under an evidence record (RFC 4998, RFC 5652, RFC 3161): the record shows by which moment
//! the file existed, and the file is judged as one could judge it then. Begin with `specs/Under.antt`.
#![tactic(auto)]

mod check;
mod given;
mod laws;
mod policy;
mod refused;

pub use check::check_under;
pub use given::UnderRecord;
pub use laws::{
    entries_count_beside, tokens_pass_under, under_answers_suffice, under_is_judged,
    under_rows_hold,
};
pub use policy::policy_at;
pub use refused::UnderRefused;

//! `check`, which judges a signed file, and `check_token`, which judges a time-stamp token, with the definitions and
//! laws of the checker: when a file is accepted, with which moment, and how it is refused (RFC 3161 2.4.2 and 4, RFC
//! 5652 5.4 and 5.6). Begin with `specs/Headline.antt`.
#![tactic(auto)]

mod accepted;
mod asking;
mod candidates;
mod certificates;
mod checker;
mod claim;
mod file;
mod filter;
mod hashed;
mod laws;
mod one_signer;
mod signer;
mod signer_stages;
mod stamp;
mod tally;
mod token;
mod token_stages;
mod trusted;

pub use accepted::Accepted;
pub use asking::{holds, question_of};
pub use candidates::next_candidate;
pub use checker::Checker;
pub use claim::Stamp;
pub use file::{check, judge_file, judge_signers};
pub use hashed::KeptDigests;
pub use laws::{
    files_are_judged, questions_suffice, rows_hold, rule_rows_hold, signers_are_judged,
    tokens_are_judged,
};
pub use one_signer::check_signer;
pub use stamp::{check_stamp, judge_stamp, judge_stamp_of};
pub use token::{check_token, judge_token};

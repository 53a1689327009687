//! What each call of the library for C says, over slices and lists; `library_records` has those about records.
//! `library_answers` says how: in numbers, by a status, and as text. `cmsproof_c` exports the calls, and holds the
//! lists for its callers.
#![tactic(auto)]

mod attach;
mod check;
mod compare;
mod fit;
mod held;
mod lists;
mod matching;
mod questions;
mod request;
mod show;
mod stamp;
mod token;

pub use attach::tell_attached;
pub use check::{Input, judge_input, tell_check};
pub use compare::tell_comparison;
pub use fit::tell_fit;
pub use held::HeldTrust;
pub use lists::{read_answers, read_trust};
pub use matching::{tell_match, tell_token};
pub use questions::tell_questions;
pub use request::{alg_of, given, tell_request, tell_request_of, tell_request_of_signature};
pub use show::tell_shown;
pub use stamp::{tell_stamp_check, tell_stamp_questions};
pub use token::tell_token_check;

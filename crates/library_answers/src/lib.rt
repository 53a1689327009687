//! How a call of the library for C says its answer: in numbers, by its status, and as a line or octets in a room.
//! `library_calls` and `library_records` have the calls.
#![tactic(auto)]

mod answer;
mod failing;
mod text;

pub use answer::{
    Answer, IS_MALFORMED, REFUSES, WRITTEN, accepted_answer, device_answer, evidence_answer,
    refused_answer, token_answer,
};
pub use failing::{
    failure_answer, failure_status, tell_failure, tell_made, tell_result, tell_unmade,
};
pub use text::{
    DONE, FAILED, MALFORMED, NO_LIST, NO_MEMORY, REFUSED, Told, USAGE, tell_line, tell_verdict,
};

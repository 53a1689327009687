//! The questions that a verifier elsewhere must be asked so that the time-stamps of an evidence record (RFC 4998) can
//! be judged, and their text.
#![tactic(auto)]

mod fault;
mod laws;
mod record_questions;

pub use fault::RecordQuestionsFault;
pub use laws::{
    record_answers_suffice, record_question_rows_hold, record_questions_are_those_asked,
};
pub use record_questions::questions_of_record;

//! The questions that a verifier elsewhere must be asked so that a file, or a token by itself, can be judged, and their
//! text.
#![tactic(auto)]

mod alone;
mod asking;
mod fault;
mod file_questions;
mod laws;
mod written;

pub use alone::token_questions;
pub use asking::put_under_token;
pub use fault::QuestionsFault;
pub use file_questions::{put_text, questions};
pub use laws::{questions_are_those_asked, rows_hold};

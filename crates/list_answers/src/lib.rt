//! Questions about signatures, answers lists (which signatures are valid), and the verifiers that answer questions; and
//! of what the texts of all lists are made: lines, the words of a line, and octets as hexadecimal digits. The words
//! that the contracts use are defined in `specs/`.
#![tactic(auto)]

mod answer_lines;
mod answers;
mod answers_fault;
mod digit_lanes;
mod fused;
mod hexadecimal;
mod laws;
mod question;
mod texts;
mod verifier;
mod written;

pub use answers::Answers;
pub use answers_fault::{AnswersFault, AnswersRule};
pub use fused::FusedVerifier;
pub use hexadecimal::{Digits, are_pairs, decode};
pub use laws::rows_hold;
pub use question::Question;
pub use texts::{Line, Lines, Words};
pub use verifier::{AskFault, Verifier};
pub use written::{put_digits, put_word};

//! `check_stream`, which judges a signed file that comes from a source and is read once, in a buffer whose size the
//! caller chooses, and `questions_stream`, which writes its questions. They give the verdict of `check` of
//! `check_verdict` about the same octets, and what `questions` of `check_questions` writes of them. Begin with
//! `specs/StreamVerdicts.antt` and `specs/StreamQuestions.antt`. Decisions 128, 129 and 245 of `docs/DECISIONS.md`.
#![tactic(auto)]

mod content;
mod fault;
mod judging;
mod stream;
mod stream_questions;

pub use fault::StreamQuestionsFault;
pub use stream::{check_stream, check_stream_by, check_stream_with};
pub use stream_questions::questions_stream;

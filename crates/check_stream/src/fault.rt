use check_questions::QuestionsFault;
use std::fmt;
use thiserror::Error;

/// Why the questions of a file that comes from a source were not written. `Display` prints the line that says so,
/// without its end.
#[derive(Clone, Copy, Debug, PartialEq, Eq, Error)]
pub enum StreamQuestionsFault {
    /// Q1 to Q3: the file is malformed or of another type, or the sink failed.
    Questions(QuestionsFault),
    /// X1: the file's source failed, and counted the failure.
    ReadFailed,
    /// X3: more must be kept of the file than there is room for.
    TooLong,
}

impl fmt::Display for StreamQuestionsFault {
    ghost use Rattle.std.specs.Prelude.{Some};
    ghost use Rattle.check_stream.specs.FaultTexts.{stream_questions_fault_text};

    ghost output = { λ f. Some (stream_questions_fault_text f) };

    fn fmt<W: fmt::Write>(&self, f: &mut fmt::Formatter<W>) -> fmt::Result {
        match self {
            StreamQuestionsFault::Questions(fault) => write!(f, "{fault}"),
            StreamQuestionsFault::ReadFailed => f.write_str("failed X1 ReadFailed"),
            StreamQuestionsFault::TooLong => f.write_str("failed X3 TooLong"),
        }
    }
}

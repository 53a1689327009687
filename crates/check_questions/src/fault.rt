use der_core::Fault;
use std::fmt;
use thiserror::Error;

/// Why the questions of a file were not written. `Display` prints the line that says so, without its end.
#[derive(Clone, Copy, Debug, PartialEq, Eq, Error)]
pub enum QuestionsFault {
    /// Q1: the file isn't a ContentInfo (RFC 5652 3).
    Malformed(Fault),
    /// Q2: it is a ContentInfo of another type.
    NotSignedData,
    /// Q3: the sink failed.
    WriteFailed,
}

impl fmt::Display for QuestionsFault {
    ghost use Rattle.std.specs.Prelude.{Some};
    ghost use Rattle.check_questions.specs.FaultTexts.{questions_fault_text};

    ghost output = { λ f. Some (questions_fault_text f) };

    fn fmt<W: fmt::Write>(&self, f: &mut fmt::Formatter<W>) -> fmt::Result {
        match self {
            QuestionsFault::Malformed(fault) => write!(f, "malformed {fault}"),
            QuestionsFault::NotSignedData => f.write_str("refused Q2 NotSignedData"),
            QuestionsFault::WriteFailed => f.write_str("failed write -"),
        }
    }
}

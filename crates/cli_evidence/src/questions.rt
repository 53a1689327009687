//! `evidence questions`: what a verifier must be asked about an evidence record (RFC 4998 5.3).
ghost use Rattle.std.specs.Prelude.{IfErr, IfOk};
ghost use Rattle.cli_commands.specs.Lists.{IsTrustOf};
ghost use Rattle.cli_evidence.specs.Questions.{HasNoRecordQuestions, ShowsNoRecordQuestions, ShowsRecordQuestions};

use check_evidence::EvidenceRefused;
use cli_commands::trust_in;
use cli_failures::{Failure, files};
use cli_tasks::EvidenceQuestionsWords;
use devices::FromWrite;
use evidence_questions::{RecordQuestionsFault, questions_of_record};
use std::rt::Files;
use trust_lists::Trust;

/// The text of the questions of the evidence record that these words name.
///
/// The trust list is opened, read and judged before the record is opened.
pub fn record_questions<'a, R: Files + AllocGlobal>(
    rt: &R,
    words: &EvidenceQuestionsWords<'a>,
) -> Result<Vec<u8>, Failure<'a>>
    ensures asked { IfOk result (λ text. ShowsRecordQuestions R.File.remaining text.items) }
    ensures refused { IfErr result (ShowsNoRecordQuestions R.File.remaining words.now) }
{
    let trust = trust_in(rt, words.trust)?;
    record_questions_by(rt, words.record, &trust)
}

/// The text of the questions of the evidence record in the file of this path, under a list that was read.
///
/// Errors: those of `record_questions` after its list was read: the file cannot be opened or read, memory is refused,
/// V1 or V2.
pub fn record_questions_by<'a, R: Files + AllocGlobal>(
    rt: &R,
    path: &'a str,
    trust: &Trust,
) -> Result<Vec<u8>, Failure<'a>>
    // If the list is that of a file, the text is that of `record_questions`.
    ensures asked { IsTrustOf R.File.remaining trust.now
        → IfOk result (λ text. ShowsRecordQuestions R.File.remaining text.items) }
    // The failure is one of `record_questions`.
    ensures refused { IfErr result (HasNoRecordQuestions R.File.remaining path.entry) }
{
    let octets = files::read_whole(rt, path)?;
    let mut text = FromWrite::new(Vec::new(rt.alloc()));
    match questions_of_record(octets.as_slice(), trust, &mut text) {
        Ok(()) => Ok(text.into_inner()),
        Err(RecordQuestionsFault::Record(rule)) => {
            Err(Failure::Unshown(EvidenceRefused::Record(rule)))
        }
        // Writing to a vector fails only if memory is refused.
        Err(RecordQuestionsFault::WriteFailed) => Err(Failure::Memory),
    }
}

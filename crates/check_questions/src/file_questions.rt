ghost use Rattle.std.specs.Prelude.{◌≡◌, ◌↔◌, List, Err};
ghost use Rattle.devices.specs.Device.{Wrote};
ghost use Rattle.cms_types.specs.SignedDataValue.{EncodesAnotherType};
ghost use Rattle.trust_lists.specs.Asking.{Asked};
ghost use Rattle.check_questions.specs.FileQuestions.{AreQuestions, AreQuestionsOf};
ghost use Rattle.check_questions.specs.QuestionsText.{questions_text};
ghost use Rattle.check_questions.specs.Written.{IsMalformed, EncodesNothing, IsWritten, IsWrittenWith, CountsWrites};

use crate::asking::{put_under_signers, signed_of};
use crate::fault::QuestionsFault;
use cms_types::Signers;
use devices::{Sink, SinkFault, put_all};
use trust_lists::Trust;

/// The first line of the text.
pub(crate) const FIRST_LINE: &[u8] = b"cmsproof questions 1\n";

/// Writes the text of the questions about signers: the first line, and the lines of the questions about each of them
/// and its tokens, in order, as `questions` says.
///
/// Errors: `SinkFault`, at the first failure of the sink. A beginning of the text was then written.
pub fn put_text<S: Sink>(sink: &mut S, trust: &Trust, signers: &Signers) -> Result<(), SinkFault>
    // The text of their questions was written and the count of failures is unchanged, or a beginning of it was written
    // and the count is raised by one.
    ensures wrote { (qs : List Asked) → AreQuestions trust.now signers.now qs → Wrote result (S.tells sink.old)
        (S.taken sink.old) (S.taken sink.new) (S.failures sink.old) (S.failures sink.new) (questions_text qs) }
    // If it was known what the sink took, it still is.
    ensures telling { S.tells sink.old → S.tells sink.new }
{
    put_all(sink, FIRST_LINE)?;
    put_under_signers(sink, trust, signers)
}

/// Writes the questions that a verifier must be asked so that a file can be judged: the line `cmsproof questions 1`,
/// and a line for each question. For each signer with signed attributes, in order, these are the questions under the
/// entries of the role `signer` that match it, in the list's order; and then, for each of its time-stamp tokens that
/// encodes a SignedData with one signer with signed attributes, the questions about that signer under the entries of
/// the role `tsa` that match it. A question that occurs twice is written twice. A line has five fields in lower-case
/// hexadecimal, `-` for an empty one, with one space between them: the key, the digest algorithm, the signature
/// algorithm, the tail of the signed attributes, the signature.
///
/// Errors: `Malformed` and `NotSignedData`, and then nothing was written; `WriteFailed` if the sink fails, and then a
/// beginning of the text was written.
pub fn questions<S: Sink>(file: &[u8], trust: &Trust, sink: &mut S) -> Result<(), QuestionsFault>
    // The file has questions, and their text was written, or after `WriteFailed` a beginning of it; or a fault of the
    // file is named, and nothing was written.
    ensures written { IsWritten trust.now file.now result (S.tells sink.old) (S.taken sink.old) (S.taken sink.new)
        (S.failures sink.old) (S.failures sink.new) }
    // For every list of the file's questions, its text was written.
    ensures only { (qs : List Asked) → AreQuestionsOf trust.now file.now qs → IsWrittenWith (questions_text qs) result
        (S.tells sink.old) (S.taken sink.old) (S.taken sink.new) (S.failures sink.old) (S.failures sink.new) }
    // `Malformed` is returned exactly if the octets don't encode a ContentInfo.
    ensures malformed { IsMalformed result ↔ EncodesNothing file.now }
    // `NotSignedData` is returned exactly if they encode one of another type.
    ensures another { (result ≡ Err QuestionsFault.NotSignedData) ↔ EncodesAnotherType file.now }
    // The count of failures is raised by one at `WriteFailed`, and otherwise unchanged.
    ensures count { CountsWrites result (S.failures sink.old) (S.failures sink.new) }
    // If it was known what the sink took, it still is.
    ensures telling { S.tells sink.old → S.tells sink.new }
{
    let signed = signed_of(file)?;
    match put_text(sink, trust, signed.signers()) {
        Ok(()) => Ok(()),
        Err(_fault) => Err(QuestionsFault::WriteFailed),
    }
}

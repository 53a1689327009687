ghost use Rattle.std.specs.Prelude.{◌≡◌, ◌↔◌, List, Err};
ghost use Rattle.devices.specs.Device.{Wrote};
ghost use Rattle.cms_types.specs.SignedDataValue.{EncodesAnotherType};
ghost use Rattle.trust_lists.specs.Asking.{Asked};
ghost use Rattle.check_questions.specs.FileQuestions.{AreQuestionsOfToken, OfToken};
ghost use Rattle.check_questions.specs.QuestionsText.{questions_text};
ghost use Rattle.check_questions.specs.Written.{IsMalformed, EncodesNothing, IsTokenWritten, IsWrittenWith};
ghost use Rattle.check_questions.specs.Written.{CountsWrites};

use crate::asking::{put_under_token, signed_of};
use crate::fault::QuestionsFault;
use crate::file_questions::FIRST_LINE;
use devices::{Sink, SinkFault, put_all};
use trust_lists::Trust;

// Writes the text of the questions about a token.
fn put_token_text<S: Sink>(sink: &mut S, trust: &Trust, token: &[u8]) -> Result<(), SinkFault>
    ensures wrote { (qs : List Asked) → OfToken trust.now token.now qs → Wrote result (S.tells sink.old)
        (S.taken sink.old) (S.taken sink.new) (S.failures sink.old) (S.failures sink.new) (questions_text qs) }
    ensures telling { S.tells sink.old → S.tells sink.new }
{
    put_all(sink, FIRST_LINE)?;
    put_under_token(sink, trust, token)
}

/// Writes the questions that a verifier must be asked so that a time-stamp token by itself can be judged, as
/// `questions` writes those of a file: the first line, and a line for each question about the token's signer under the
/// entries of the role `tsa` that match it, in the list's order. A token that has no signer, or two, has none.
///
/// Errors: `Malformed` and `NotSignedData`, and then nothing was written; `WriteFailed` if the sink fails, and then a
/// beginning of the text was written.
pub fn token_questions<S: Sink>(
    token: &[u8],
    trust: &Trust,
    sink: &mut S,
) -> Result<(), QuestionsFault>
    // The token has questions, and their text was written, or after `WriteFailed` a beginning of it; or a fault of the
    // token is named, and nothing was written.
    ensures written { IsTokenWritten trust.now token.now result (S.tells sink.old) (S.taken sink.old)
        (S.taken sink.new) (S.failures sink.old) (S.failures sink.new) }
    // For every list of the token's questions, its text was written.
    ensures only { (qs : List Asked) → AreQuestionsOfToken trust.now token.now qs → IsWrittenWith (questions_text qs)
        result (S.tells sink.old) (S.taken sink.old) (S.taken sink.new) (S.failures sink.old) (S.failures sink.new) }
    // `Malformed` is returned exactly if the octets don't encode a ContentInfo.
    ensures malformed { IsMalformed result ↔ EncodesNothing token.now }
    // `NotSignedData` is returned exactly if they encode one of another type.
    ensures another { (result ≡ Err QuestionsFault.NotSignedData) ↔ EncodesAnotherType token.now }
    // The count of failures is raised by one at `WriteFailed`, and otherwise unchanged.
    ensures count { CountsWrites result (S.failures sink.old) (S.failures sink.new) }
    // If it was known what the sink took, it still is.
    ensures telling { S.tells sink.old → S.tells sink.new }
{
    signed_of(token)?;
    match put_token_text(sink, trust, token) {
        Ok(()) => Ok(()),
        Err(_fault) => Err(QuestionsFault::WriteFailed),
    }
}

ghost use Rattle.std.specs.Prelude.{◌≡◌, ◌⊎◌, List, [], length, Err};
ghost use Rattle.cms_types.specs.SignedDataValue.{EncodesAnotherType, signers_parts};
ghost use Rattle.trust_lists.specs.Asking.{Asked};
ghost use Rattle.check_questions.specs.FileQuestions.{AreQuestions, AreQuestionsOf};
ghost use Rattle.check_questions.specs.QuestionsText.{questions_text};
ghost use Rattle.check_questions.specs.Written.{EncodesNothing, IsUntouched};
ghost use Rattle.check_questions.specs.declared.fault.QuestionsFault.{QuestionsFault};
ghost use Rattle.check_stream.specs.StreamQuestions.{IsWrittenOf, IsWrittenAs, IsCutShort, IsMalformed};
ghost use Rattle.check_stream.specs.StreamQuestions.{IsBeforeText, IsTextOrBefore, CountsReads, IsEarly};
ghost use Rattle.check_stream.specs.PassSteps.{HasQuestions, PutsPass};

use crate::fault::StreamQuestionsFault;
use check_questions::{QuestionsFault, put_text};
use cms_stream::{Opened, Pass, StreamFault, Taker};
use cms_types::Signers;
use devices::{Sink, Source};
use trust_lists::Trust;

// Takes the octets of a content, and keeps none of them.
#[derive(Clone, Copy)]
struct Unkept;

impl Taker for Unkept {
    ghost use Rattle.std.specs.Prelude.{⊤};

    ghost held = { λ _ _. ⊤ };

    fn take(&mut self, _octets: &[u8]) {}
}

// These signers, which were read from these octets, have a list of questions. There is nothing to do at run time.
fn have_questions(octets: &[u8], signers: &Signers, trust: &Trust)
    requires { octets.now ≡ signers_parts signers.now }
    ensures { (qs : List Asked) × AreQuestions trust.now signers.now qs }
{}

// Writes the questions of what a pass over a file kept, or says why it stopped.
fn put_pass<S: Sink>(
    pass: Result<Option<Opened>, StreamFault>,
    trust: &Trust,
    sink: &mut S,
) -> Result<(), StreamQuestionsFault>
    ensures puts { PutsPass trust.now pass.entry result (S.tells sink.old) (S.taken sink.old) (S.taken sink.new)
        (S.failures sink.old) (S.failures sink.new) }
    ensures some { HasQuestions trust.now pass.entry }
    ensures telling { S.tells sink.old → S.tells sink.new }
{
    let opened = match pass {
        Ok(Some(opened)) => opened,
        Ok(None) => {
            return Err(StreamQuestionsFault::Questions(QuestionsFault::NotSignedData));
        }
        Err(StreamFault::Malformed(fault)) => {
            return Err(StreamQuestionsFault::Questions(QuestionsFault::Malformed(fault)));
        }
        Err(StreamFault::ReadFailed) => return Err(StreamQuestionsFault::ReadFailed),
        Err(StreamFault::TooLong) => return Err(StreamQuestionsFault::TooLong),
    };
    have_questions(opened.signers().bytes(), opened.signers(), trust);
    match put_text(sink, trust, opened.signers()) {
        Ok(()) => Ok(()),
        Err(_fault) => Err(StreamQuestionsFault::Questions(QuestionsFault::WriteFailed)),
    }
}

/// Writes the questions that a verifier must be asked so that a file can be judged, as `questions` of `check_questions`
/// writes them of the same octets. The file is read once, to its end. The buffer holds the whole elements
/// `eContentType` and `signerInfos` (RFC 5652 5.1, 5.2); nothing else of the file is kept, and nothing is allocated.
/// The first octet is written when the file was read to its end.
///
/// The window serves for one file after another: it is empty at the front of each.
///
/// Errors: `Malformed` with a fault of the octets, or one met before the ends of the elements around it;
/// `NotSignedData`; `ReadFailed` if the source fails; `TooLong` as soon as headers state more for these two elements
/// than the buffer has; and then nothing was written; `WriteFailed` if the sink fails, and then a beginning of the text
/// was written.
pub fn questions_stream<F: Source, S: Sink>(
    passing: &mut Pass,
    file: &mut F,
    buffer: &mut [u8],
    trust: &Trust,
    sink: &mut S,
) -> Result<(), StreamQuestionsFault>
    // Of a file that is known: it has questions, and their text was written, or after `WriteFailed` a beginning of it;
    // or a fault of the file is named, or it states more than there is room for, and nothing was written.
    ensures written { F.tells file.old → IsWrittenOf trust.now (F.rest file.old) (length buffer.old) result
        (S.tells sink.old) (S.taken sink.old) (S.taken sink.new) (S.failures sink.old) (S.failures sink.new) }
    // For every list of the file's questions, its text was written, unless the source failed or there was too little
    // room.
    ensures only { F.tells file.old → (qs : List Asked) → AreQuestionsOf trust.now (F.rest file.old) qs
        → IsCutShort result ⊎ IsWrittenAs (questions_text qs) result (S.tells sink.old) (S.taken sink.old)
        (S.taken sink.new) (S.failures sink.old) (S.failures sink.new) }
    // `Malformed` is returned if the octets don't encode a ContentInfo, unless the source failed or there was too
    // little room.
    ensures malformed { F.tells file.old → EncodesNothing (F.rest file.old) → IsCutShort result ⊎ IsMalformed result }
    // `NotSignedData` is returned if they encode one of another type, with the same exceptions.
    ensures another { F.tells file.old → EncodesAnotherType (F.rest file.old) → IsCutShort result
        ⊎ (result ≡ Err (StreamQuestionsFault.Questions QuestionsFault.NotSignedData)) }
    // Of each file, also one that isn't known: nothing was written, unless the text or a beginning of it was.
    ensures before { IsBeforeText result → IsUntouched (S.tells sink.old) (S.taken sink.old) (S.taken sink.new)
        (S.failures sink.old) (S.failures sink.new) }
    // Of each file, also one that isn't known: what was written is the text of questions about signers under this
    // trust list, or a beginning of it, or nothing. If the file is known, they are its questions.
    ensures text { IsTextOrBefore trust.now (F.tells file.old) (F.rest file.old) result (S.tells sink.old)
        (S.taken sink.old) (S.taken sink.new) (S.failures sink.old) (S.failures sink.new) }
    // The source's count of failures is raised by one exactly at `ReadFailed`.
    ensures reads { CountsReads result (F.failures file.old) (F.failures file.new) }
    // The file is read to its end, unless the answer is `Malformed`, `ReadFailed` or `TooLong`.
    ensures end { F.tells file.old → IsEarly result ⊎ (F.rest file.new ≡ []) }
    // If it was known what the sink took, it still is.
    ensures telling { S.tells sink.old → S.tells sink.new }
{
    let pass = passing.open_stream(file, buffer, &mut Unkept);
    put_pass(pass, trust, sink)
}

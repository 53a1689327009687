ghost use Rattle.std.specs.Prelude.{◌≡◌, ◌↔◌, List, IfOk, IfErr, MatchResult};
ghost use Rattle.cms_types.specs.SignedDataValue.{EncodesAnotherType};
ghost use Rattle.trust_lists.specs.Asking.{Asked};
ghost use Rattle.check_questions.specs.FileQuestions.{AreQuestionsOf, AreQuestionsOfToken};
ghost use Rattle.check_questions.specs.QuestionsText.{questions_text};
ghost use Rattle.check_questions.specs.Written.{EncodesNothing};
ghost use Rattle.library_calls.specs.Questions.{IsUnasked, IsMalformed, IsQuestioned, unasked_numbers};
ghost use Rattle.library_calls.specs.Questions.{unasked_status};

use check_questions::{QuestionsFault, questions, token_questions};
use devices::FromWrite;
use library_answers::{
    Answer, IS_MALFORMED, MALFORMED, NO_MEMORY, REFUSED, REFUSES, Told, tell_made,
};
use std::alloc::Global;
use trust_lists::Trust;

/// The text of the questions of a file. Writing to a vector fails only if memory is refused.
fn text_of(alloc: Global, list: &Trust, octets: &[u8]) -> Result<Vec<u8>, QuestionsFault>
    ensures asked { IfOk result (λ v. (qs : List Asked) × AreQuestionsOf list.now octets.now qs
        × (v.items ≡ questions_text qs)) }
    ensures refused { IfErr result (IsUnasked octets.now) }
    ensures only { (qs : List Asked) → AreQuestionsOf list.now octets.now qs → MatchResult result
        (λ v. v.items ≡ questions_text qs) (λ why. why ≡ QuestionsFault.WriteFailed) }
    ensures malformed { MatchResult result (λ _. EncodesNothing octets.now → ⊥)
        (λ why. IsMalformed why ↔ EncodesNothing octets.now) }
    ensures another { MatchResult result (λ _. EncodesAnotherType octets.now → ⊥)
        (λ why. (why ≡ QuestionsFault.NotSignedData) ↔ EncodesAnotherType octets.now) }
{
    let mut sink = FromWrite::new(Vec::new(alloc));
    match questions(octets, list, &mut sink) {
        Ok(()) => Ok(sink.into_inner()),
        Err(fault) => Err(fault),
    }
}

/// The same for a token by itself.
pub(crate) fn token_text(
    alloc: Global,
    list: &Trust,
    token: &[u8],
) -> Result<Vec<u8>, QuestionsFault>
    ensures asked { IfOk result (λ v. (qs : List Asked) × AreQuestionsOfToken list.now token.now qs
        × (v.items ≡ questions_text qs)) }
    ensures refused { IfErr result (IsUnasked token.now) }
{
    let mut sink = FromWrite::new(Vec::new(alloc));
    match token_questions(token, list, &mut sink) {
        Ok(()) => Ok(sink.into_inner()),
        Err(fault) => Err(fault),
    }
}

/// Why there are no questions, in numbers.
pub(crate) fn fault_answer(fault: QuestionsFault) -> Answer
    ensures { result ≡ unasked_numbers fault }
{
    match fault {
        QuestionsFault::Malformed(fault) => Answer::ruled(IS_MALFORMED, b'Q', 1).with_fault(fault),
        QuestionsFault::NotSignedData => Answer::ruled(REFUSES, b'Q', 2),
        QuestionsFault::WriteFailed => Answer::nothing(),
    }
}

/// The status of a file without questions.
pub(crate) fn fault_status(fault: QuestionsFault) -> u32
    ensures { result ≡ unasked_status fault }
{
    match fault {
        QuestionsFault::Malformed(_) => MALFORMED,
        QuestionsFault::NotSignedData => REFUSED,
        QuestionsFault::WriteFailed => NO_MEMORY,
    }
}

/// Puts the questions of a file into their room, or says why there are none.
pub fn tell_questions(alloc: Global, list: &Trust, octets: &[u8], room: &mut [u8]) -> Told
    // The text of the file's questions, the only one, or its size if there is too little room; or why there are none.
    ensures { IsQuestioned list.now octets.now result.said result.status room.old result.size room.new }
{
    match text_of(alloc, list, octets) {
        Ok(found) => tell_made(&found, room),
        Err(fault) => Told::without_text(fault_status(fault), fault_answer(fault)),
    }
}

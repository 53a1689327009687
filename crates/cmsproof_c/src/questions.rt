ghost use Rattle.std.specs.Prelude.{◌≡◌, ◌↔◌, List, IfSome};
ghost use Rattle.cms_types.specs.SignedDataValue.{EncodesAnotherType};
ghost use Rattle.trust_lists.specs.Asking.{Asked};
ghost use Rattle.check_questions.specs.FileQuestions.{AreQuestionsOf};
ghost use Rattle.check_questions.specs.QuestionsText.{questions_text};
ghost use Rattle.check_questions.specs.Written.{EncodesNothing};
ghost use Rattle.library_calls.specs.Questions.{IsAskedIfMemory};
ghost use Rattle.cmsproof_c.specs.Held.{AsksFile};

use crate::trust_handle::TrustHandle;
use library_answers::{Answer, NO_LIST};
use library_calls::tell_questions;
use std::alloc::Global;

/// The questions of a file, under the list of a handle.
#[unsafe(no_mangle)]
pub extern "C" fn cmsproof_questions(
    alloc: Global,
    trust: &mut TrustHandle,
    octets: &[u8],
    text: &mut [u8],
    size: &mut usize,
    said: &mut Answer,
) -> u32
    // The text of the file's questions, or its size if there is too little room; or a fault that the file has; without
    // a list no verdict.
    ensures questions { AsksFile trust.old.inside.kept octets.now said.new result text.old size.new
        text.new }
    // For every list of the file's questions, its text, if there is memory.
    ensures only { IfSome trust.old.inside.kept (λ list. (qs : List Asked) → AreQuestionsOf list octets.now qs
        → IsAskedIfMemory (questions_text qs) said.new result text.old size.new text.new) }
    // With a list, malformed exactly if the octets don't encode a ContentInfo.
    ensures malformed { IfSome trust.old.inside.kept (λ _. (result ≡ 3) ↔ EncodesNothing octets.now) }
    // With a list, refused exactly if they encode one of another type.
    ensures another { IfSome trust.old.inside.kept (λ _. (result ≡ 2) ↔ EncodesAnotherType octets.now) }
    // The trust list stays as it was.
    ensures trust { trust.new.inside.kept ≡ trust.old.inside.kept }
{
    put_by!(alloc, trust: TrustHandle, list => tell_questions(alloc, list.list(), octets, text) => size, said)
}

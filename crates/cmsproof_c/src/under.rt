ghost use Rattle.std.specs.Prelude.{◌≡◌, ℕ, List, IfSome};
ghost use Rattle.trust_lists.specs.Asking.{Asked};
ghost use Rattle.library_records.specs.Under.{AnswersUnderAlike, IsUnderChecked, SaysYesUnder};
ghost use Rattle.cmsproof_c.specs.Held.{IsUnderCheck, VouchesSame, stated_under};

use crate::answers_handle::AnswersHandle;
use crate::lists::take_both;
use crate::trust_handle::TrustHandle;
use check_under::under_answers_suffice;
use library_answers::{Answer, NO_LIST, Told};
use library_calls::Input;
use library_records::{UnderInput, tell_check_under};
use std::alloc::Global;

/// Takes the lists out of their handles, checks the file under the evidence record, and puts them back.
fn check_held(
    alloc: Global,
    trust: &mut TrustHandle,
    answers: &mut AnswersHandle,
    input: &UnderInput,
    room: &mut [u8],
) -> Told
    ensures verdict { IsUnderCheck trust.old.inside.kept answers.old.inside.kept input.now result.said result.status
        room.old result.size room.new }
    ensures trust { trust.new.inside.kept ≡ trust.old.inside.kept }
    ensures answers { VouchesSame answers.old.inside.kept answers.new.inside.kept }
{
    told_by_lists!(alloc, trust, answers, list, asked
        => tell_check_under(alloc, list.list(), &mut asked, input, room))
}

/// Whether each signature of a file in memory existed by a moment, under an evidence record and the lists of two
/// handles: a record that shows the file, and the content if it is given. Texts state the ends of algorithms and the
/// moment at which the record's last time-stamp must hold.
#[unsafe(no_mangle)]
pub extern "C" fn cmsproof_check_under(
    alloc: Global,
    trust: &mut TrustHandle,
    answers: &mut AnswersHandle,
    file: &[u8],
    content: &[u8],
    content_given: bool,
    evidence: &[u8],
    ends: &[u8],
    at: &[u8],
    text: &mut [u8],
    size: &mut usize,
    said: &mut Answer,
) -> u32
    // With both lists the numbers say that the file is accepted under the record with a moment exactly if it is, by the
    // definition, unless memory is refused, or the content that is handed in has more than 2^40 octets.
    ensures headline { IfSome trust.old.inside.kept (λ list. IfSome answers.old.inside.kept (λ asked. (m : ℕ)
        → SaysYesUnder list asked (stated_under file.now content.now content_given evidence.now ends.now at.now)
        said.new result m)) }
    // With both lists the verdict of the definitions, in numbers and as its line, or which of the ends and the moment
    // is not as it must be; without one of them no verdict.
    ensures verdict { IsUnderCheck trust.old.inside.kept answers.old.inside.kept
        (stated_under file.now content.now content_given evidence.now ends.now at.now) said.new result text.old
        size.new text.new }
    // The verdict is right with each list that answers the questions of the record and of the file as the answers list
    // does.
    ensures sufficient { IfSome trust.old.inside.kept (λ list. IfSome answers.old.inside.kept (λ asked.
        (others : List Asked) → AnswersUnderAlike list evidence.now file.now asked others → IsUnderChecked list others
        (stated_under file.now content.now content_given evidence.now ends.now at.now) said.new result text.old
        size.new text.new)) }
    // The trust list stays as it was.
    ensures trust { trust.new.inside.kept ≡ trust.old.inside.kept }
    // The answers list vouches for what it vouched for.
    ensures answers { VouchesSame answers.old.inside.kept answers.new.inside.kept }
{
    under_answers_suffice();
    let input = UnderInput {
        evidence,
        signed: Input {
            file,
            content,
            given: content_given,
        },
        ends,
        at,
    };
    put!(check_held(alloc, trust, answers, &input, text) => size, said)
}

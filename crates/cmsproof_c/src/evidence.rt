ghost use Rattle.std.specs.Prelude.{◌≡◌, ℕ, List, IfSome};
ghost use Rattle.trust_lists.specs.Asking.{Asked};
ghost use Rattle.library_records.specs.Evidence.{AnswersAlike, IsEvidenceChecked, SaysShown};
ghost use Rattle.cmsproof_c.specs.Held.{AsksEvidence, IsEvidenceCheck, VouchesSame, stated};

use crate::answers_handle::AnswersHandle;
use crate::lists::take_both;
use crate::trust_handle::TrustHandle;
use library_answers::{Answer, NO_LIST, Told};
use library_records::{EvidenceInput, tell_evidence_check, tell_evidence_questions};
use std::alloc::Global;

/// Takes the lists out of their handles, checks the evidence record under them, and puts them back.
fn check_held(
    alloc: Global,
    trust: &mut TrustHandle,
    answers: &mut AnswersHandle,
    input: &EvidenceInput,
    room: &mut [u8],
) -> Told
    ensures verdict { IsEvidenceCheck trust.old.inside.kept answers.old.inside.kept input.now result.said result.status
        room.old result.size room.new }
    ensures trust { trust.new.inside.kept ≡ trust.old.inside.kept }
    ensures answers { VouchesSame answers.old.inside.kept answers.new.inside.kept }
{
    told_by_lists!(alloc, trust, answers, list, asked
        => tell_evidence_check(alloc, list.list(), &mut asked, input, room))
}

/// Whether an evidence record shows that data objects existed, and by which moment, under the lists of two handles. The
/// data objects stand one after the other, each with its length; texts state the ends of algorithms and the moment at
/// which the last time-stamp must hold.
#[unsafe(no_mangle)]
pub extern "C" fn cmsproof_evidence_check(
    alloc: Global,
    trust: &mut TrustHandle,
    answers: &mut AnswersHandle,
    evidence: &[u8],
    joined: &[u8],
    lengths: &[u64],
    ends: &[u8],
    at: &[u8],
    whole: bool,
    text: &mut [u8],
    size: &mut usize,
    said: &mut Answer,
) -> u32
    // With both lists the numbers say that the record shows a moment for the data objects exactly if it does, by the
    // definition, unless memory is refused.
    ensures headline { IfSome trust.old.inside.kept (λ list. IfSome answers.old.inside.kept (λ asked. (m : ℕ)
        → SaysShown list asked (stated evidence.now joined.now lengths.now ends.now at.now whole) said.new result m)) }
    // With both lists the verdict of the definitions, in numbers and as its line, or which of the ends, the moment and
    // the lengths is not as it must be; without one of them no verdict.
    ensures verdict { IsEvidenceCheck trust.old.inside.kept answers.old.inside.kept
        (stated evidence.now joined.now lengths.now ends.now at.now whole) said.new result text.old size.new text.new }
    // The verdict is right with each list that answers the record's questions as the answers list does.
    ensures sufficient { IfSome trust.old.inside.kept (λ list. IfSome answers.old.inside.kept (λ asked.
        (others : List Asked) → AnswersAlike list evidence.now asked others → IsEvidenceChecked list others
        (stated evidence.now joined.now lengths.now ends.now at.now whole) said.new result text.old size.new
        text.new)) }
    // The trust list stays as it was.
    ensures trust { trust.new.inside.kept ≡ trust.old.inside.kept }
    // The answers list vouches for what it vouched for.
    ensures answers { VouchesSame answers.old.inside.kept answers.new.inside.kept }
{
    let input = EvidenceInput {
        evidence,
        joined,
        lengths,
        ends,
        at,
        whole,
    };
    put!(check_held(alloc, trust, answers, &input, text) => size, said)
}

/// The questions of an evidence record, under the list of a handle.
#[unsafe(no_mangle)]
pub extern "C" fn cmsproof_evidence_questions(
    alloc: Global,
    trust: &mut TrustHandle,
    evidence: &[u8],
    text: &mut [u8],
    size: &mut usize,
    said: &mut Answer,
) -> u32
    // The text of its questions, or its size if there is too little room; or why there are none; without a list no
    // verdict.
    ensures questions { AsksEvidence trust.old.inside.kept evidence.now said.new result text.old size.new text.new }
    // The trust list stays as it was.
    ensures trust { trust.new.inside.kept ≡ trust.old.inside.kept }
{
    put_by!(alloc, trust: TrustHandle, list
        => tell_evidence_questions(alloc, list.list(), evidence, text) => size, said)
}

ghost use Rattle.std.specs.Prelude.{◌≡◌, ℕ, Bool, IfSome};
ghost use Rattle.trust_lists.specs.Asking.{Asked};
ghost use Rattle.check_verdict.specs.Questions.{Answers, with_answers};
ghost use Rattle.library_calls.specs.Checked.{handed, terms_under, IsChecked, SaysYes, SaysMoment, AnswersAsked};
ghost use Rattle.cmsproof_c.specs.Held.{IsCheck, VouchesSame};

use crate::answers_handle::AnswersHandle;
use crate::lists::take_both;
use crate::trust_handle::TrustHandle;
use library_answers::{Answer, NO_LIST, Told};
use library_calls::{Input, tell_check};
use std::alloc::Global;

/// Takes the lists out of their handles, checks the file under them, and puts them back.
fn check_held(
    alloc: Global,
    trust: &mut TrustHandle,
    answers: &mut AnswersHandle,
    input: Input,
    sha1: bool,
    room: &mut [u8],
) -> Told
    ensures verdict { IsCheck trust.old.inside.kept answers.old.inside.kept input.entry.file.now
        (handed input.entry.given input.entry.content.now) sha1 result.said result.status room.old result.size
        room.new }
    ensures trust { trust.new.inside.kept ≡ trust.old.inside.kept }
    ensures answers { VouchesSame answers.old.inside.kept answers.new.inside.kept }
{
    told_by_lists!(alloc, trust, answers, list, asked
        => tell_check(alloc, &mut list, &mut asked, input, sha1, room))
}

/// Whether each signature of a file in memory existed by a moment, under the lists of two handles.
///
/// An answers list keeps nothing of what it is asked, so what `check` says of the questions that its verifier is asked
/// is said here of the verdict: it rests on the answers to no other ones.
#[unsafe(no_mangle)]
pub extern "C" fn cmsproof_check(
    alloc: Global,
    trust: &mut TrustHandle,
    answers: &mut AnswersHandle,
    file: &[u8],
    content: &[u8],
    content_given: bool,
    sha1: bool,
    text: &mut [u8],
    size: &mut usize,
    said: &mut Answer,
) -> u32
    // With both lists the numbers say yes with a moment exactly if the definition says so under them, unless the
    // content that is handed in has more than 2^40 octets.
    ensures headline { IfSome trust.old.inside.kept (λ list. IfSome answers.old.inside.kept (λ asked. (m : ℕ)
        → SaysYes (terms_under list asked sha1) file.now (handed content_given content.now) said.new m)) }
    // With both lists the verdict of the definitions, in numbers and as its line; without one of them no verdict.
    ensures verdict { IsCheck trust.old.inside.kept answers.old.inside.kept file.now
        (handed content_given content.now) sha1 said.new result text.old size.new text.new }
    // The verdict 1 is said with a moment alone, and the status 1 with this verdict alone.
    ensures moment { SaysMoment said.new result }
    // The verdict is right with each list of answers that gives the answers list's answers to the file's questions.
    ensures sufficient { IfSome trust.old.inside.kept (λ list. IfSome answers.old.inside.kept (λ asked.
        (vouches : Asked → Bool) → Answers (terms_under list asked sha1) file.now vouches
        → IsChecked (with_answers (terms_under list asked sha1) vouches) file.now (handed content_given content.now)
        said.new result text.old size.new text.new)) }
    // So it is with each that gives its answers to the questions that are asked: about signers that fit the content, or
    // their tokens, under entries that passed the earlier filters.
    ensures asked { IfSome trust.old.inside.kept (λ list. IfSome answers.old.inside.kept (λ asked.
        (vouches : Asked → Bool) → AnswersAsked (terms_under list asked sha1) file.now
        (handed content_given content.now) vouches
        → IsChecked (with_answers (terms_under list asked sha1) vouches) file.now (handed content_given content.now)
        said.new result text.old size.new text.new)) }
    // The trust list stays as it was.
    ensures trust { trust.new.inside.kept ≡ trust.old.inside.kept }
    // The answers list vouches for what it vouched for.
    ensures answers { VouchesSame answers.old.inside.kept answers.new.inside.kept }
{
    let input = Input {
        file,
        content,
        given: content_given,
    };
    put!(check_held(alloc, trust, answers, input, sha1, text) => size, said)
}

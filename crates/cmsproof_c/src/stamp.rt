ghost use Rattle.std.specs.Prelude.{◌≡◌, ℕ, IfSome};
ghost use Rattle.library_calls.specs.Checked.{terms_under};
ghost use Rattle.library_calls.specs.Stamps.{SaysStamped};
ghost use Rattle.cmsproof_c.specs.Held.{AsksStamp, IsStampCheck, VouchesSame};

use crate::answers_handle::AnswersHandle;
use crate::lists::take_both;
use crate::trust_handle::TrustHandle;
use library_answers::{Answer, NO_LIST, Told};
use library_calls::{tell_stamp_check, tell_stamp_questions};
use std::alloc::Global;

/// Takes the lists out of their handles, checks the stamp under them, and puts them back.
fn check_held(
    alloc: Global,
    trust: &mut TrustHandle,
    answers: &mut AnswersHandle,
    stamp: &[u8],
    stamped: &[u8],
    sha1: bool,
    room: &mut [u8],
) -> Told
    ensures verdict { IsStampCheck trust.old.inside.kept answers.old.inside.kept stamp.now stamped.now sha1 result.said
        result.status room.old result.size room.new }
    ensures trust { trust.new.inside.kept ≡ trust.old.inside.kept }
    ensures answers { VouchesSame answers.old.inside.kept answers.new.inside.kept }
{
    told_by_lists!(alloc, trust, answers, list, asked
        => tell_stamp_check(alloc, &mut list, &mut asked, stamp, stamped, sha1, room))
}

/// Whether a stamp, a token by itself or a response with one, is valid for these octets, under the lists of two
/// handles.
#[unsafe(no_mangle)]
pub extern "C" fn cmsproof_stamp_check(
    alloc: Global,
    trust: &mut TrustHandle,
    answers: &mut AnswersHandle,
    stamp: &[u8],
    stamped: &[u8],
    sha1: bool,
    text: &mut [u8],
    size: &mut usize,
    said: &mut Answer,
) -> u32
    // With both lists the numbers say that its token passes with a moment exactly if it does, by the definition.
    ensures headline { IfSome trust.old.inside.kept (λ list. IfSome answers.old.inside.kept (λ asked. (m : ℕ)
        → SaysStamped (terms_under list asked sha1) stamp.now stamped.now said.new m)) }
    // With both lists the verdict of the definitions about its token, in numbers and as its line, or why it holds none;
    // without one of them no verdict.
    ensures verdict { IsStampCheck trust.old.inside.kept answers.old.inside.kept stamp.now stamped.now sha1 said.new
        result
        text.old size.new text.new }
    // The trust list stays as it was.
    ensures trust { trust.new.inside.kept ≡ trust.old.inside.kept }
    // The answers list vouches for what it vouched for.
    ensures answers { VouchesSame answers.old.inside.kept answers.new.inside.kept }
{
    put!(check_held(alloc, trust, answers, stamp, stamped, sha1, text) => size, said)
}

/// The questions of a stamp, under the list of a handle.
#[unsafe(no_mangle)]
pub extern "C" fn cmsproof_stamp_questions(
    alloc: Global,
    trust: &mut TrustHandle,
    stamp: &[u8],
    text: &mut [u8],
    size: &mut usize,
    said: &mut Answer,
) -> u32
    // The text of its token's questions, or its size if there is too little room; or why there are none; without a list
    // no verdict.
    ensures questions { AsksStamp trust.old.inside.kept stamp.now said.new result text.old size.new text.new }
    // The trust list stays as it was.
    ensures trust { trust.new.inside.kept ≡ trust.old.inside.kept }
{
    put_by!(alloc, trust: TrustHandle, list => tell_stamp_questions(alloc, list.list(), stamp, text) => size, said)
}

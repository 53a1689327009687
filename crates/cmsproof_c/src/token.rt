ghost use Rattle.std.specs.Prelude.{◌≡◌, ℕ, IfSome};
ghost use Rattle.library_calls.specs.Checked.{terms_under};
ghost use Rattle.library_calls.specs.CheckedTokens.{SaysPasses};
ghost use Rattle.cmsproof_c.specs.Held.{IsTokenCheck, VouchesSame};

use crate::answers_handle::AnswersHandle;
use crate::lists::take_both;
use crate::trust_handle::TrustHandle;
use library_answers::{Answer, NO_LIST, Told};
use library_calls::tell_token_check;
use std::alloc::Global;

/// Takes the lists out of their handles, checks the token under them, and puts them back.
fn check_held(
    alloc: Global,
    trust: &mut TrustHandle,
    answers: &mut AnswersHandle,
    token: &[u8],
    octets: &[u8],
    sha1: bool,
) -> Told
    ensures verdict { IsTokenCheck trust.old.inside.kept answers.old.inside.kept token.now octets.now sha1 result.said
        result.status }
    ensures trust { trust.new.inside.kept ≡ trust.old.inside.kept }
    ensures answers { VouchesSame answers.old.inside.kept answers.new.inside.kept }
{
    told_by_lists!(alloc, trust, answers, list, asked
        => tell_token_check(&mut list, &mut asked, token, octets, sha1))
}

/// Whether a token is valid for octets that were stamped, under the lists of two handles.
#[unsafe(no_mangle)]
pub extern "C" fn cmsproof_check_token(
    alloc: Global,
    trust: &mut TrustHandle,
    answers: &mut AnswersHandle,
    token: &[u8],
    stamped: &[u8],
    sha1: bool,
    said: &mut Answer,
) -> u32
    // With both lists the numbers say that the token passes with a moment exactly if it does, by the definition.
    ensures headline { IfSome trust.old.inside.kept (λ list. IfSome answers.old.inside.kept (λ asked. (m : ℕ)
        → SaysPasses (terms_under list asked sha1) token.now stamped.now said.new m)) }
    // With both lists the verdict of the definitions, in numbers; without one of them no verdict.
    ensures verdict { IsTokenCheck trust.old.inside.kept answers.old.inside.kept token.now
        stamped.now sha1 said.new result }
    // The trust list stays as it was.
    ensures trust { trust.new.inside.kept ≡ trust.old.inside.kept }
    // The answers list vouches for what it vouched for.
    ensures answers { VouchesSame answers.old.inside.kept answers.new.inside.kept }
{
    let told = check_held(alloc, trust, answers, token, stamped, sha1);
    *said = told.said;
    told.status
}

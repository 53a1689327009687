//! A time-stamp token by itself, or a response with one, over what it should stamp (RFC 3161 2.4.2).
ghost use Rattle.std.specs.Prelude.{◌≡◌};
ghost use Rattle.trust_lists.specs.Asking.{is_among};
ghost use Rattle.library_calls.specs.Checked.{terms_under};
ghost use Rattle.library_calls.specs.Stamps.{IsOfRules, IsStampChecked, IsStampQuestioned, SaysStamp};

use crate::held::HeldTrust;
use crate::questions::{fault_answer, fault_status, token_text};
use crate::token::token_verdict;
use check_fit::TokenRefused;
use check_verdict::Accepted;
use cli_failures::Failure;
use cli_failures::token::stamp_in;
use library_answers::{
    Told, failure_answer, failure_status, tell_failure, tell_made, tell_verdict,
};
use list_answers::Answers;
use std::alloc::Global;
use trust_lists::Trust;

/// A verdict about a token, in numbers and as its line. No device fails: the lists are in memory.
fn tell_token_verdict(
    alloc: Global,
    verdict: Result<Accepted, TokenRefused>,
    room: &mut [u8],
) -> Told
    requires { IsOfRules verdict }
    ensures { SaysStamp verdict result.said result.status room.old result.size room.new }
{
    match verdict {
        Ok(accepted) => tell_verdict(alloc, &Ok(accepted), room),
        Err(TokenRefused::Rule(rule)) => tell_failure(alloc, &Failure::Unstamped(rule), room),
        Err(TokenRefused::Device(_)) => unreachable!(),
    }
}

/// Says whether a stamp, a token or a response with one, is valid for these octets, under these lists.
pub fn tell_stamp_check(
    alloc: Global,
    list: &mut HeldTrust,
    asked: &mut Answers,
    stamp: &[u8],
    stamped: &[u8],
    sha1: bool,
    room: &mut [u8],
) -> Told
    // The verdict of the definitions about its token, in numbers and as its line; or why it holds none.
    ensures verdict { IsStampChecked
        (terms_under list.old asked.old sha1) stamp.now stamped.now result.said result.status
        room.old result.size room.new }
    // The trust list stays as it was.
    ensures list { list.new ≡ list.old }
    // The answers list vouches for what it vouched for.
    ensures same { is_among asked.new ≡ is_among asked.old }
{
    match stamp_in(stamp) {
        Ok(token) => {
            let verdict = token_verdict(list, asked, token, stamped, sha1);
            tell_token_verdict(alloc, verdict, room)
        }
        Err(why) => tell_failure(alloc, &why, room),
    }
}

/// Puts the questions of a stamp's token into their room, or says in numbers why there are none.
pub fn tell_stamp_questions(alloc: Global, list: &Trust, stamp: &[u8], room: &mut [u8]) -> Told
    // The text of its token's questions, or its size if there is too little room; or why there are none.
    ensures { IsStampQuestioned list.now stamp.now result.said result.status room.old result.size room.new }
{
    let token = match stamp_in(stamp) {
        Ok(token) => token,
        Err(why) => return Told::without_text(failure_status(&why), failure_answer(&why)),
    };
    match token_text(alloc, list, token) {
        Ok(found) => tell_made(&found, room),
        Err(fault) => Told::without_text(fault_status(fault), fault_answer(fault)),
    }
}

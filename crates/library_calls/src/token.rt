ghost use Rattle.std.specs.Prelude.{◌≡◌};
ghost use Rattle.trust_lists.specs.Asking.{is_among};
ghost use Rattle.library_calls.specs.Checked.{terms_under};
ghost use Rattle.library_calls.specs.CheckedTokens.{IsTokenJudged, IsTokenChecked, token_answer_numbers, token_status};

use crate::held::HeldTrust;
use check_fit::TokenRefused;
use check_verdict::{Accepted, judge_token};
use library_answers::{
    Answer, DONE, FAILED, REFUSED, Told, accepted_answer, device_answer, token_answer,
};
use list_answers::Answers;

/// The verdict about a token under these lists.
pub(crate) fn token_verdict(
    list: &mut HeldTrust,
    asked: &mut Answers,
    token: &[u8],
    stamped: &[u8],
    sha1: bool,
) -> Result<Accepted, TokenRefused>
    ensures verdict { IsTokenJudged (terms_under list.old asked.old sha1) token.now stamped.now result }
    ensures list { list.new ≡ list.old }
    ensures same { is_among asked.new ≡ is_among asked.old }
{
    let mut checker = list.checker(sha1);
    let verdict = judge_token(token, stamped, &mut checker, asked);
    let kept = checker.into_kept();
    list.keep(kept);
    verdict
}

/// An answer about a token in numbers.
fn numbers_of(answer: &Result<Accepted, TokenRefused>) -> Answer
    ensures { result ≡ token_answer_numbers answer.now }
{
    match answer {
        Ok(accepted) => accepted_answer(accepted.moment),
        Err(TokenRefused::Rule(rule)) => token_answer(*rule),
        Err(TokenRefused::Device(fault)) => device_answer(*fault),
    }
}

/// The status of an answer about a token.
fn status_of(answer: &Result<Accepted, TokenRefused>) -> u32
    ensures { result ≡ token_status answer.now }
{
    match answer {
        Ok(_) => DONE,
        Err(TokenRefused::Rule(_)) => REFUSED,
        Err(TokenRefused::Device(_)) => FAILED,
    }
}

/// Says whether a token is valid for octets that were stamped, under these lists.
pub fn tell_token_check(
    list: &mut HeldTrust,
    asked: &mut Answers,
    token: &[u8],
    stamped: &[u8],
    sha1: bool,
) -> Told
    // The verdict of the definitions, in numbers, and no text.
    ensures verdict { IsTokenChecked (terms_under list.old asked.old sha1) token.now stamped.now result.said
        result.status }
    // The trust list stays as it was.
    ensures list { list.new ≡ list.old }
    // The answers list vouches for what it vouched for.
    ensures same { is_among asked.new ≡ is_among asked.old }
{
    let verdict = token_verdict(list, asked, token, stamped, sha1);
    Told::without_text(status_of(&verdict), numbers_of(&verdict))
}

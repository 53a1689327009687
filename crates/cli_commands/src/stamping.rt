//! `stamp`: a time-stamp token by itself, or a response with one, beside the file that it stamps (RFC 3161 2.4.2).
ghost use Rattle.std.specs.Prelude.{IfErr, IfOk};
ghost use Rattle.cli_commands.specs.Lists.{IsTrustOf};
ghost use Rattle.cli_commands.specs.Stamping.{ShowsNoStampQuestions, ShowsStampQuestions, ShowsStamped, ShowsUnstamped};
ghost use Rattle.cli_commands.specs.Stamping.{HasNoStampQuestions, IsVerdictOf};

use crate::checking::line_of;
use crate::lists;
use check_fit::{Policy, Refused, TokenRefused};
use check_questions::{QuestionsFault, token_questions};
use check_verdict::{Accepted, Checker, Stamp, judge_stamp_of};
use cli_failures::token::stamp_in;
use cli_failures::{Failure, files};
use cli_tasks::{StampQuestionsWords, StampWords};
use devices::{FromRead, FromWrite};
use std::rt::Files;
use trust_lists::Trust;

/// The line that says by when the file of these words existed, if its stamp passes.
///
/// The trust list is opened, read and judged first, then the answers list, and then the stamp. If its token states what
/// one must (K1 to K8), the other file is opened, and read once, in pieces.
#[inline(never)]
pub fn check_stamp<'a, R: Files + AllocGlobal>(
    rt: &R,
    words: &StampWords<'a>,
) -> Result<Vec<u8>, Failure<'a>>
    ensures accepted { IfOk result (λ line. ShowsStamped R.File.remaining words.now line.items) }
    ensures refused { IfErr result (ShowsUnstamped R.File.remaining words.now) }
{
    let trust = lists::trust_in(rt, words.trust)?;
    let mut answers = lists::answers_in(rt, words.answers)?;
    let octets = files::read_whole(rt, words.stamp)?;
    let token = stamp_in(octets.as_slice())?;
    let policy = Policy::with_sha1(words.sha1);
    let stamp = match Stamp::read(policy, token) {
        Ok(stamp) => stamp,
        Err(rule) => return Err(Failure::Unstamped(rule)),
    };
    let mut data = FromRead::new(files::open(rt, words.data)?);
    let mut checker = Checker::of(&trust, policy);
    let verdict = judge_stamp_of(&stamp, &mut data, &mut checker, &mut answers);
    line_of(rt.alloc(), accepted(verdict)?)
}

/// A verdict as that of a file, unless the token fails a rule.
fn accepted<'a>(
    verdict: Result<Accepted, TokenRefused>,
) -> Result<Result<Accepted, Refused>, Failure<'a>>
    ensures { IsVerdictOf verdict result }
{
    match verdict {
        Ok(accepted) => Ok(Ok(accepted)),
        Err(TokenRefused::Rule(rule)) => Err(Failure::Unstamped(rule)),
        Err(TokenRefused::Device(fault)) => Ok(Err(Refused::Device(fault))),
    }
}

/// The text of the questions of the stamp that these words name.
///
/// The trust list is opened, read and judged before the stamp is opened.
pub fn stamp_questions<'a, R: Files + AllocGlobal>(
    rt: &R,
    words: &StampQuestionsWords<'a>,
) -> Result<Vec<u8>, Failure<'a>>
    ensures asked { IfOk result (λ text. ShowsStampQuestions R.File.remaining text.items) }
    ensures refused { IfErr result (ShowsNoStampQuestions R.File.remaining words.now) }
{
    let trust = lists::trust_in(rt, words.trust)?;
    stamp_questions_by(rt, words.stamp, &trust)
}

/// The text of the questions of the stamp in the file of this path, under a list that was read.
///
/// Errors: those of `stamp_questions` after its list was read: the file cannot be opened or read, memory is refused, or
/// the file holds no token.
pub fn stamp_questions_by<'a, R: Files + AllocGlobal>(
    rt: &R,
    path: &'a str,
    trust: &Trust,
) -> Result<Vec<u8>, Failure<'a>>
    // If the list is that of a file, the text is that of `stamp_questions`.
    ensures asked { IsTrustOf R.File.remaining trust.now
        → IfOk result (λ text. ShowsStampQuestions R.File.remaining text.items) }
    // The failure is one of `stamp_questions`.
    ensures refused { IfErr result (HasNoStampQuestions R.File.remaining path.entry) }
{
    let octets = files::read_whole(rt, path)?;
    let token = stamp_in(octets.as_slice())?;
    let mut text = FromWrite::new(Vec::new(rt.alloc()));
    match token_questions(token, trust, &mut text) {
        Ok(()) => Ok(text.into_inner()),
        Err(QuestionsFault::Malformed(fault)) => {
            Err(Failure::Unasked(QuestionsFault::Malformed(fault)))
        }
        Err(QuestionsFault::NotSignedData) => Err(Failure::Unasked(QuestionsFault::NotSignedData)),
        // Writing to a vector fails only if memory is refused.
        Err(QuestionsFault::WriteFailed) => Err(Failure::Memory),
    }
}

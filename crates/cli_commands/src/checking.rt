ghost use Rattle.std.specs.Prelude.{◌≡◌, Bool, MatchBool, MatchResult, IfErr, IfOk, length};
ghost use Rattle.trust_lists.specs.Asking.{Asked, is_among};
ghost use Rattle.check_verdict.specs.Checking.{ChecksStream};
ghost use Rattle.check_verdict.specs.Checkers.{terms_for};
ghost use Rattle.cli_commands.specs.Checking.{ShowsAccepted, ShowsRefused, TellsAccepted};
ghost use Rattle.cli_commands.specs.Fit.{TellsUnfit};
ghost use Rattle.cli_commands.specs.Lists.{IsAnswersOf, IsCheckerOf};
ghost use Rattle.cli_commands.specs.Rereading.{OfReading};
ghost use Rattle.check_fit.specs.FileFitting.{facts_of};
ghost use Rattle.check_stream.specs.StreamVerdicts.{IsTooLong};

use crate::lists;
use crate::rereading::{Describes, Rereadable};
use crate::room::{Rooms, limit_of};
use check_fit::{DeviceFault, Policy, Refused};
use check_stream::{check_stream_by, check_stream_with};
use check_verdict::{Accepted, Checker};
use cli_failures::{Failure, files};
use cli_tasks::CheckWords;
use cms_stream::Pass;
use devices::{FromWrite, Source};
use lines_report::report;
use list_answers::Answers;
use std::alloc::{AllocError, Global};
use std::io::{Read, Seek};
use std::rt::Files;

/// The line that says by when each signature of the file that these words name existed, if it is accepted.
///
/// The trust list is opened, read and judged first, then the answers list; then the content's file is opened, and then
/// the other one, which is read in pieces; the content is read last, in pieces too. No more octets of the file are kept
/// than the words allow. Decisions 114, 130, 131 and 244 of `docs/DECISIONS.md`.
#[inline(never)]
pub fn check<'a, R: Files + AllocGlobal>(
    rt: &R,
    words: &CheckWords<'a>,
) -> Result<Vec<u8>, Failure<'a>>
where
    R::File: Describes,
    ensures accepted { IfOk result (λ line. (file : R.File) × ShowsAccepted R.File.remaining words.now
        (R.File.remaining file) line.items) }
    ensures refused { IfErr result (ShowsRefused R.File.remaining R.File.says words.now) }
{
    let trust = lists::trust_in(rt, words.trust)?;
    let mut answers = lists::answers_in(rt, words.answers)?;
    let mut passing = Pass::new();
    let mut checker = Checker::of(&trust, Policy::with_sha1(words.sha1));
    check_by(rt, words, &mut answers, &mut passing, &mut checker)
}

/// The same by what was read of the lists, with a window and a checker that serve for another file afterwards, too.
/// What they hold of earlier files changes nothing of what is said of this one.
///
/// Errors: those of `check` after its lists were read: a file cannot be opened or read, memory is refused, or the file
/// is refused.
pub fn check_by<'a, R: Files + AllocGlobal>(
    rt: &R,
    words: &CheckWords<'a>,
    answers: &mut Answers,
    passing: &mut Pass,
    checker: &mut Checker,
) -> Result<Vec<u8>, Failure<'a>>
where
    R::File: Describes,
    // If it goes by the lists of files and by the words, the line and the failure are those of `check`.
    ensures accepted { IsCheckerOf R.File.remaining words.now.sha1 checker.old
        → IsAnswersOf R.File.remaining answers.old → IfOk result (λ line. (file : R.File)
        × ShowsAccepted R.File.remaining words.now (R.File.remaining file) line.items) }
    // The same of the failure.
    ensures refused { IsCheckerOf R.File.remaining words.now.sha1 checker.old
        → IsAnswersOf R.File.remaining answers.old
        → IfErr result (ShowsRefused R.File.remaining R.File.says words.now) }
    // What the answers list vouches for stays the same.
    ensures same { ◌≡◌ {A = Asked → Bool} (λ q. is_among answers.new q) (λ q. is_among answers.old q) }
    // What the check goes by stays the same.
    ensures stays { checker.new ≡ checker.old }
{
    let mut content = files::content_of(rt, words.content)?;
    let mut file = Rereadable {
        file: files::open(rt, words.file)?,
        failed: 0,
    };
    let stated = file.stated();
    let limit = limit_of(words.buffer, stated.is_some());
    let verdict = verdict_within(
        rt.alloc(),
        &mut file,
        &mut content,
        stated,
        limit,
        answers,
        passing,
        checker,
    )?;
    line_of(rt.alloc(), verdict)
}

/// The verdict about a file from which nothing was read, which says that it is this long if it can be read again, and
/// of which no more octets may be kept than this limit.
///
/// A file that can be read again is first read with little room. If that is too little, the file goes back to its front
/// and is read with more, up to the limit. What the file says of its length decides about the room, and whether it can
/// be read again, and about nothing else: a file that states more than its length, or that grew after it was asked, is
/// read once more, and the hint too.
///
/// Errors: the verdicts of `verdict_of`; memory that is refused.
fn verdict_within<F: Read + Seek, S: Source>(
    alloc: Global,
    file: &mut Rereadable<F>,
    content: &mut Option<S>,
    stated: Option<u64>,
    limit: u64,
    answers: &mut Answers,
    passing: &mut Pass,
    checker: &mut Checker,
) -> Result<Result<Accepted, Refused>, AllocError>
    // The verdict is that of one pass with as much room as the limit: a pass with less gives the same, unless it is X3.
    ensures judged { IfOk result (λ verdict. OfReading F.stream_position F.remaining (λ octets. ChecksStream
        (facts_of S.tells S.rest S.failures) (terms_for checker.old (λ q. is_among answers.old q)) octets
        content.old content.new) file.old.file limit file.old.failed file.new.failed content.old content.new verdict) }
    // What the answers list vouches for stays the same.
    ensures same { ◌≡◌ {A = Asked → Bool} (λ q. is_among answers.new q) (λ q. is_among answers.old q) }
    // What the check goes by stays the same.
    ensures stays { checker.new ≡ checker.old }
{
    let again = stated.is_some();
    let mut rooms = Rooms::first(stated, limit);
    while rooms.now < limit {
        let mut buffer = vec![in alloc; 0; rooms.now as usize]?;
        let verdict = verdict_of(
            file,
            again,
            content,
            buffer.as_mut_slice(),
            answers,
            passing,
            checker,
        );
        if !is_too_long(&verdict) {
            return Ok(verdict);
        }
        match file.rewind() {
            Ok(()) => rooms = rooms.next(stated, limit),
            Err(_) => return Ok(Err(Refused::Device(DeviceFault::ReadFailed))),
        }
    }
    let mut buffer = vec![in alloc; 0; limit as usize]?;
    Ok(verdict_of(
        file,
        again,
        content,
        buffer.as_mut_slice(),
        answers,
        passing,
        checker,
    ))
}

/// Whether there was too little room, X3.
fn is_too_long(verdict: &Result<Accepted, Refused>) -> bool
    ensures { MatchBool result (IsTooLong verdict.now) (IsTooLong verdict.now → ⊥) }
{
    matches!(verdict, Err(Refused::Device(DeviceFault::TooLong)))
}

/// The verdict about a file from which nothing was read, and whether it can be read again.
///
/// If a regular file has the content in it, a hint saves time: the content is hashed by the algorithms that the file's
/// digestAlgorithms name; if a signer needs another one, which is no fault, the file is read again, and hashed by all.
/// A file that can be read only once is hashed by all algorithms; and a content that is handed in is read when the
/// file's signers are known, so it needs no hint.
///
/// Errors: as `check_stream`; X1 also if a regular file can't go back to its front.
fn verdict_of<F: Read + Seek, S: Source>(
    file: &mut Rereadable<F>,
    again: bool,
    content: &mut Option<S>,
    buffer: &mut [u8],
    answers: &mut Answers,
    passing: &mut Pass,
    checker: &mut Checker,
) -> Result<Accepted, Refused>
    // The verdict is that of one pass over the file, independent of the algorithms that the file names: X1 if that pass
    // failed or could not begin, X3 if it had too little room, otherwise the verdict about the octets that the file had
    // left as it began.
    ensures judged { OfReading F.stream_position F.remaining (λ octets. ChecksStream
        (facts_of S.tells S.rest S.failures) (terms_for checker.old (λ q. is_among answers.old q)) octets
        content.old content.new) file.old.file (length buffer.old) file.old.failed file.new.failed
        content.old content.new result }
    // After X3 the content was not read, and no device failed.
    ensures untouched { IsTooLong result → (content.new ≡ content.old) × (file.new.failed ≡ file.old.failed) }
    // What the answers list vouches for stays the same.
    ensures same { ◌≡◌ {A = Asked → Bool} (λ q. is_among answers.new q) (λ q. is_among answers.old q) }
    // What the check goes by stays the same.
    ensures stays { checker.new ≡ checker.old }
{
    if content.is_some() || !again {
        return check_stream_with(passing, checker, file, content, buffer, answers);
    }
    let Ok(listed) = file.listed(passing) else {
        return Err(Refused::Device(DeviceFault::ReadFailed));
    };
    if let Some(verdict) = check_stream_by(
        passing, checker, file, content, buffer, answers, listed,
    ) {
        return verdict;
    }
    let Ok(()) = file.rewind() else {
        return Err(Refused::Device(DeviceFault::ReadFailed));
    };
    check_stream_with(passing, checker, file, content, buffer, answers)
}

/// The line of a verdict, if it accepts.
///
/// Errors: `Refused`, with why it doesn't; memory is refused for the line.
pub fn line_of<'a>(
    alloc: Global,
    verdict: Result<Accepted, Refused>,
) -> Result<Vec<u8>, Failure<'a>>
    ensures { MatchResult result (λ line. TellsAccepted verdict line.items) (TellsUnfit verdict) }
{
    if let Err(refused) = verdict {
        return Err(Failure::Refused(refused));
    }
    let mut line = FromWrite::new(Vec::new(alloc));
    match report(&verdict, &mut line) {
        Ok(()) => Ok(line.into_inner()),
        // Writing to a vector fails only if memory is refused.
        Err(_) => Err(Failure::Memory),
    }
}

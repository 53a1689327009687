ghost use Rattle.std.specs.Prelude.{◌≡◌, ℕ, List, Err, IfErr, IfOk, OnErr, OnOk, MatchBool};
ghost use Rattle.std.specs.Io.KnownBytes.{Appends, Keeps};
ghost use Rattle.check_stream.specs.StreamQuestions.{CountsReads};
ghost use Rattle.cli_commands.specs.Asking.{AsksReading, ShowsQuestions, ShowsPart, AsksNot, KeepsUnlessFailed};
ghost use Rattle.cli_commands.specs.Asking.{failure_of};
ghost use Rattle.cli_commands.specs.Lists.{IsTrustOf};
ghost use Rattle.cli_commands.specs.Rereading.{IsLimitFor};

use crate::lists;
use crate::output::put_questions;
use crate::rereading::{Describes, Rereadable};
use crate::room::{Rooms, limit_of};
use check_fit::{DeviceFault, Refused};
use check_stream::StreamQuestionsFault;
use cli_failures::{Failure, files};
use cli_tasks::QuestionsWords;
use cms_stream::Pass;
use std::alloc::{AllocError, Global};
use std::io::{Read, Seek, Write};
use std::rt::Files;
use trust_lists::Trust;

/// Prints the text of the questions of the file that these words name, as they are found (decision 112 of
/// `docs/DECISIONS.md`).
///
/// The trust list is opened, read and judged before the file is opened. The file is read in pieces, and no more octets
/// of it are kept than the words allow.
#[inline(never)]
pub fn ask<'a, R: Files + AllocGlobal, O: Write>(
    rt: &R,
    words: &QuestionsWords<'a>,
    out: &mut O,
) -> Result<(), Failure<'a>>
where
    R::File: Describes,
    ensures asked { OnOk result ((text : List ℕ) × ShowsQuestions R.File.remaining text × Appends (O.contents out.old)
        (O.contents out.new) text) }
    ensures refused { IfErr result (AsksNot R.File.remaining R.File.says words.now) }
    // Before the line of a refusal nothing was printed.
    ensures kept { IfErr result (KeepsUnlessFailed (O.contents out.old) (O.contents out.new)) }
    // If the output failed, it took a beginning of the text.
    ensures cut { IfErr result (ShowsPart R.File.remaining (O.contents out.old) (O.contents out.new)) }
{
    let trust = lists::trust_in(rt, words.trust)?;
    let mut passing = Pass::new();
    ask_by(rt, words, &trust, out, &mut passing)
}

/// The same under a list that was read, with a window that serves for another file afterwards, too. What it holds of
/// earlier files changes nothing of what is said of this one.
///
/// Errors: those of `ask` after its list was read: the file cannot be opened or read, memory is refused, the output
/// fails, or the file is refused.
pub fn ask_by<'a, R: Files + AllocGlobal, O: Write>(
    rt: &R,
    words: &QuestionsWords<'a>,
    trust: &Trust,
    out: &mut O,
    passing: &mut Pass,
) -> Result<(), Failure<'a>>
where
    R::File: Describes,
    // If the list is that of a file, the text and the failure are those of `ask`.
    ensures asked { IsTrustOf R.File.remaining trust.now → OnOk result ((text : List ℕ)
        × ShowsQuestions R.File.remaining text × Appends (O.contents out.old) (O.contents out.new) text) }
    // The same of the failure.
    ensures refused { IsTrustOf R.File.remaining trust.now
        → IfErr result (AsksNot R.File.remaining R.File.says words.now) }
    // Nothing was printed if this fails, unless the output failed.
    ensures kept { IfErr result (KeepsUnlessFailed (O.contents out.old) (O.contents out.new)) }
    // And then it took a beginning of the text.
    ensures cut { IsTrustOf R.File.remaining trust.now
        → IfErr result (ShowsPart R.File.remaining (O.contents out.old) (O.contents out.new)) }
{
    let mut file = Rereadable {
        file: files::open(rt, words.file)?,
        failed: 0,
    };
    match asked_as_stated(rt.alloc(), &mut file, words.buffer, trust, out, passing)? {
        Ok(()) => Ok(()),
        Err(fault) => Err(failure_of(words.file, fault)),
    }
}

/// Prints the text of the questions of a file from which nothing was read, and of which no more octets may be kept than
/// the words say, if they do. What the file says of itself decides otherwise, and only that.
///
/// Errors: those of `asked_within`.
fn asked_as_stated<F: Read + Seek + Describes, O: Write>(
    alloc: Global,
    file: &mut Rereadable<F>,
    said: Option<u64>,
    trust: &Trust,
    out: &mut O,
    passing: &mut Pass,
) -> Result<Result<(), StreamQuestionsFault>, AllocError>
    // It is one pass with as much room as the limit of this file.
    ensures asked { IfOk result (λ asked. (limit : ℕ) × IsLimitFor F.says file.old.file said limit
        × AsksReading F.stream_position F.remaining trust.now file.old.file limit asked (O.contents out.old)
        (O.contents out.new)) }
    // If memory is refused, nothing was printed.
    ensures kept { OnErr result (Keeps (O.contents out.old) (O.contents out.new)) }
{
    let stated = file.stated();
    let limit = limit_of(said, stated.is_some());
    asked_within(alloc, file, stated, limit, trust, out, passing)
}

/// Prints the text of the questions of a file from which nothing was read, which says that it is this long if it can be
/// read again, and of which no more octets may be kept than this limit.
///
/// A file that can be read again is first read with little room. If that is too little, nothing was printed, the file
/// goes back to its front and is read with more, up to the limit.
///
/// Errors: those of `put_questions`; memory that is refused.
fn asked_within<F: Read + Seek, O: Write>(
    alloc: Global,
    file: &mut Rereadable<F>,
    stated: Option<u64>,
    limit: u64,
    trust: &Trust,
    out: &mut O,
    passing: &mut Pass,
) -> Result<Result<(), StreamQuestionsFault>, AllocError>
    // It is one pass with as much room as the limit: a pass with less gives the same, unless it has too little.
    ensures asked { IfOk result (λ asked. AsksReading F.stream_position F.remaining trust.now file.old.file limit asked
        (O.contents out.old) (O.contents out.new)) }
    // The file's count of failures is raised exactly if the file failed.
    ensures reads { IfOk result (λ asked. CountsReads asked file.old.failed file.new.failed) }
    // If memory is refused, nothing was printed.
    ensures kept { OnErr result (Keeps (O.contents out.old) (O.contents out.new)) }
{
    let mut rooms = Rooms::first(stated, limit);
    while rooms.now < limit {
        let mut buffer = vec![in alloc; 0; rooms.now as usize]?;
        let asked = put_questions(file, buffer.as_mut_slice(), trust, out, passing);
        if !is_too_long(&asked) {
            return Ok(asked);
        }
        match file.rewind() {
            Ok(()) => rooms = rooms.next(stated, limit),
            Err(_) => return Ok(Err(StreamQuestionsFault::ReadFailed)),
        }
    }
    let mut buffer = vec![in alloc; 0; limit as usize]?;
    Ok(put_questions(file, buffer.as_mut_slice(), trust, out, passing))
}

/// Whether there was too little room.
fn is_too_long(asked: &Result<(), StreamQuestionsFault>) -> bool
    ensures { MatchBool result (asked.now ≡ Err StreamQuestionsFault.TooLong)
        (asked.now ≡ Err StreamQuestionsFault.TooLong → ⊥) }
{
    matches!(asked, Err(StreamQuestionsFault::TooLong))
}

/// The failure that says why the questions of the file of this path were not printed.
fn failure_of<'a>(path: &'a str, fault: StreamQuestionsFault) -> Failure<'a>
    ensures { result ≡ failure_of path.entry fault }
{
    match fault {
        StreamQuestionsFault::Questions(why) => Failure::Unasked(why),
        StreamQuestionsFault::ReadFailed => Failure::Read(path),
        StreamQuestionsFault::TooLong => Failure::Refused(Refused::Device(DeviceFault::TooLong)),
    }
}

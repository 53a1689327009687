//! `questions`, `stamp questions` and `evidence questions` of several files.
ghost use Rattle.std.specs.Prelude.{◌≡◌, ◌++◌, ℕ, List, IfErr, IfOk, OnOk};
ghost use Rattle.std.specs.Io.KnownBytes.{Appends};
ghost use Rattle.cli_failures.specs.declared.status.Status.{Status};
ghost use Rattle.cli_failures.specs.Output.{Begins, IsLost};
ghost use Rattle.cli_tasks.specs.declared.task.Each.TheVariants as asked;
ghost use Rattle.cli_commands.specs.Asking.{AsksNot, ShowsQuestions};
ghost use Rattle.cli_commands.specs.Lists.{IsTrustOf};
ghost use Rattle.cli_files.specs.Lines.{FailsAbout, IsHeaded, ShowsAbout, TellsAll, TellsNotAll, first_line};
ghost use Rattle.cli_files.specs.Names.{heading_of};

use crate::lines::put_failure;
use crate::names::heading_of;
use crate::worst::worse;
use check_questions::QuestionsFault;
use cli_commands::{Describes, ask_by, stamp_questions_by, trust_in};
use cli_evidence::record_questions_by;
use cli_failures::output::put;
use cli_failures::{Failure, Status};
use cli_tasks::{About, QuestionsEach, QuestionsWords};
use cms_stream::Pass;
use std::alloc::Global;
use std::io::Write;
use std::rt::Files;
use trust_lists::Trust;

/// The first line of the text.
const FIRST_LINE: &[u8] = b"cmsproof questions 1\n";

/// What begins a comment.
const COMMENT: &[u8] = b"# ";

/// Prints the text of the questions of all these files, with a comment before those of each file, and returns the worst
/// status.
///
/// The list is opened, read and judged first, once. One window serves for all files.
///
/// Errors: those of the list; memory that is refused for a line; an output that fails. After them no other file is
/// opened.
#[inline(never)]
pub fn ask_all<'a, R: Files + AllocGlobal, O: Write>(
    rt: &R,
    each: &QuestionsEach<'a>,
    paths: &[&'a str],
    out: &mut O,
) -> Result<Status, Failure<'a>>
where
    R::File: Describes,
    ensures told { IfOk result (TellsAll R.File.remaining R.File.says (asked.Questions each.now) paths.now
        (O.contents out.old) (O.contents out.new)) }
    ensures refused { IfErr result (TellsNotAll R.File.remaining R.File.says O.contents (asked.Questions each.now)
        paths.now out.old out.new) }
{
    let trust = trust_in(rt, each.trust)?;
    put(out, FIRST_LINE)?;
    let mut passing = Pass::new();
    let mut worst = Status::Done;
    for path in paths {
        let said = asked_about(rt, each, path, &trust, &mut passing);
        worst = worse(worst, put_asked(rt.alloc(), path, &said, out)?);
    }
    Ok(worst)
}

/// The text of the questions of the file of this path, under a list that was read.
///
/// Errors: those of the command for that file alone after its list was read.
fn asked_about<'a, R: Files + AllocGlobal>(
    rt: &R,
    each: &QuestionsEach<'a>,
    path: &'a str,
    trust: &Trust,
    passing: &mut Pass,
) -> Result<Vec<u8>, Failure<'a>>
where
    R::File: Describes,
    // If the list is that of a file, the text and the failure are those of the command for the file alone.
    ensures asked { IsTrustOf R.File.remaining trust.now
        → IfOk result (λ text. ShowsAbout R.File.remaining each.now.about text.items) }
    ensures refused { IsTrustOf R.File.remaining trust.now
        → IfErr result (FailsAbout R.File.remaining R.File.says each.now.trust each.now.about path.entry) }
{
    match each.about {
        About::Stamps => stamp_questions_by(rt, path, trust),
        About::Records => record_questions_by(rt, path, trust),
        About::Signed(buffer) => {
            let words = QuestionsWords {
                trust: each.trust,
                buffer,
                file: path,
            };
            questions_by(rt, &words, trust, passing)
        }
    }
}

/// The text of the questions of the file of these words, under a list that was read.
///
/// Errors: as `ask_by`, but for an output that fails: it is a vector, and fails only if memory is refused.
fn questions_by<'a, R: Files + AllocGlobal>(
    rt: &R,
    words: &QuestionsWords<'a>,
    trust: &Trust,
    passing: &mut Pass,
) -> Result<Vec<u8>, Failure<'a>>
where
    R::File: Describes,
    // If the list is that of a file, the text and the failure are those of `questions`.
    ensures asked { IsTrustOf R.File.remaining trust.now
        → IfOk result (λ text. ShowsQuestions R.File.remaining text.items) }
    ensures refused { IsTrustOf R.File.remaining trust.now
        → IfErr result (AsksNot R.File.remaining R.File.says words.now) }
{
    let mut text = Vec::new(rt.alloc());
    match ask_by(rt, words, trust, &mut text, passing) {
        Ok(()) => Ok(text),
        Err(failure) => {
            if is_unwritten(&failure) {
                Err(Failure::Memory)
            } else {
                Err(failure)
            }
        }
    }
}

/// Whether the output failed.
fn is_unwritten(failure: &Failure<'_>) -> bool {
    matches!(failure, Failure::Unasked(QuestionsFault::WriteFailed))
}

/// Prints the questions of a file behind a comment with its name, or a comment with the line of a file that has none,
/// and returns how the command for it ended.
fn put_asked<'a, O: Write>(
    alloc: Global,
    path: &str,
    said: &Result<Vec<u8>, Failure<'_>>,
    out: &mut O,
) -> Result<Status, Failure<'a>>
    ensures put { IfOk result (λ ends. (text : List ℕ) × IsHeaded (λ v. v.items) said.now path.now text ends
        × Appends (O.contents out.old) (O.contents out.new) text) }
    ensures lost { IfErr result (λ f. IsLost f × ((text : List ℕ) × (ends : Status)
        × IsHeaded (λ v. v.items) said.now path.now text ends
        × Begins (O.contents out.old) (O.contents out.new) text)) }
{
    match said {
        Ok(text) => {
            put_heading(alloc, path, out)?;
            put(out, behind_first_line(text.as_slice()))?;
            Ok(Status::Done)
        }
        Err(failure) => put_failure(alloc, COMMENT, path, failure, out),
    }
}

/// Prints the comment before the questions of a file.
fn put_heading<'a, O: Write>(alloc: Global, path: &str, out: &mut O) -> Result<(), Failure<'a>>
    ensures put { OnOk result (Appends (O.contents out.old) (O.contents out.new) (heading_of path.now)) }
    ensures lost { IfErr result (λ f. IsLost f
        × Begins (O.contents out.old) (O.contents out.new) (heading_of path.now)) }
{
    let heading = heading_of(alloc, path)?;
    put(out, heading.as_slice())
}

/// What is behind the first line of the text of a file's questions.
fn behind_first_line(text: &[u8]) -> &[u8]
    ensures { (asked : List ℕ) → text.now ≡ first_line ++ asked → result.now ≡ asked }
{
    &text[FIRST_LINE.len().min(text.len())..]
}

//! `check` of several files.
ghost use Rattle.std.specs.Prelude.{IfErr, IfOk};
ghost use Rattle.cli_tasks.specs.declared.task.Each.TheVariants as asked;
ghost use Rattle.cli_files.specs.Lines.{TellsAll, TellsNotAll};

use crate::lines::put_said;
use crate::worst::worse;
use check_fit::Policy;
use check_verdict::Checker;
use cli_commands::{Describes, answers_in, check_by, trust_in};
use cli_failures::{Failure, Status};
use cli_tasks::{CheckEach, CheckWords};
use cms_stream::Pass;
use std::io::Write;
use std::rt::Files;

/// Prints a line for each of these files, and returns the worst status.
///
/// The lists are opened, read and judged first, once. One window serves for all files, and what is kept of the trust
/// list for a file serves for the next.
///
/// Errors: those of a list; memory that is refused for a line; an output that fails. After them no other file is
/// opened.
#[inline(never)]
pub fn check_all<'a, R: Files + AllocGlobal, O: Write>(
    rt: &R,
    each: &CheckEach<'a>,
    paths: &[&'a str],
    out: &mut O,
) -> Result<Status, Failure<'a>>
where
    R::File: Describes,
    ensures told { IfOk result (TellsAll R.File.remaining R.File.says (asked.Check each.now) paths.now
        (O.contents out.old) (O.contents out.new)) }
    ensures refused { IfErr result (TellsNotAll R.File.remaining R.File.says O.contents (asked.Check each.now)
        paths.now out.old out.new) }
{
    let trust = trust_in(rt, each.trust)?;
    let mut answers = answers_in(rt, each.answers)?;
    let mut passing = Pass::new();
    let mut checker = Checker::of(&trust, Policy::with_sha1(each.sha1));
    let mut worst = Status::Done;
    for path in paths {
        let words = CheckWords {
            trust: each.trust,
            answers: each.answers,
            content: each.content,
            sha1: each.sha1,
            buffer: each.buffer,
            file: path,
        };
        let said = check_by(rt, &words, &mut answers, &mut passing, &mut checker);
        worst = worse(worst, put_said(rt.alloc(), path, &said, out)?);
    }
    Ok(worst)
}

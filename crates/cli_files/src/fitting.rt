//! `fit` of several files.
ghost use Rattle.std.specs.Prelude.{IfErr, IfOk};
ghost use Rattle.cli_tasks.specs.declared.task.Each.TheVariants as asked;
ghost use Rattle.cli_files.specs.Lines.{TellsAll, TellsNotAll};

use crate::lines::put_said;
use crate::worst::worse;
use cli_commands::{Describes, text_of};
use cli_failures::{Failure, Status};
use cli_tasks::{FitEach, FitWords, TextTask};
use std::io::Write;
use std::rt::Files;

/// Prints a line for each of these files, and returns the worst status.
///
/// Errors: memory that is refused for a line; an output that fails. After them no other file is opened.
pub fn fit_all<'a, R: Files + AllocGlobal, O: Write>(
    rt: &R,
    each: &FitEach<'a>,
    paths: &[&'a str],
    out: &mut O,
) -> Result<Status, Failure<'a>>
where
    R::File: Describes,
    ensures told { IfOk result (TellsAll R.File.remaining R.File.says (asked.Fit each.now) paths.now
        (O.contents out.old) (O.contents out.new)) }
    ensures refused { IfErr result (TellsNotAll R.File.remaining R.File.says O.contents (asked.Fit each.now)
        paths.now out.old out.new) }
{
    let mut worst = Status::Done;
    for path in paths {
        let words = FitWords {
            file: path,
            content: each.content,
            sha1: each.sha1,
        };
        let said = text_of(rt, TextTask::Fit(words));
        worst = worse(worst, put_said(rt.alloc(), path, &said, out)?);
    }
    Ok(worst)
}

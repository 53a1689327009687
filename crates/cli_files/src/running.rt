//! What a command does that is asked of several files.
ghost use Rattle.std.specs.Prelude.{◌≡◌, ◌≢◌, ◌⊎◌, IfErr, IfOk, OnOk, codes, map};
ghost use Rattle.cli_failures.specs.Failures.{failure_text, said, status_of};
ghost use Rattle.cli_files.specs.Lines.{AreUnlisted, EndsFiles, EndsMany, TellsAll, TellsNotAll};
ghost use Rattle.cli_files.specs.Paths.{ListsNone, end_of, names_of, path_of_name};

use crate::asking::ask_all;
use crate::checking::check_all;
use crate::fitting::fit_all;
use crate::paths::paths_in;
use crate::stopping::stop;
use cli_commands::Describes;
use cli_failures::{Failure, Status, files};
use cli_tasks::{Each, ListWords, Many, Several};
use std::alloc::Global;
use std::io::Write;
use std::rt::Files;

/// The word that names a list of files.
const LIST: &str = "files-from";

/// Does what a command asks of each of several files, and reports how it ended.
///
/// What is printed of files goes to `out`, also of those that fail. Only what stops the command before it is through
/// goes to `err`: the output or memory fails, or the list of files.
pub fn run<R, O, E>(rt: &R, many: &Many<'_>, out: &mut O, err: &mut E) -> Status
where
    R: Files + AllocGlobal,
    R::File: Describes,
    O: Write,
    E: Write,
    // With a status other than `Usage` the output took what is printed of all the files, and the status is the worst of
    // theirs; or it took the line of a list that isn't as it must be; or the command failed and stopped, and the output
    // took a beginning of that, if it is known what it takes. A list of the files names some, all in UTF-8.
    ensures told { result ≢ Status.Usage → EndsMany R.File.remaining R.File.says many.now.each many.now.files result
        (O.contents out.old) (O.contents out.new) }
    // With `Usage` the files are in a list that names none, or in which a name isn't UTF-8.
    ensures usage { result ≡ Status.Usage → AreUnlisted R.File.remaining many.now.files }
    // If the list of files isn't as it must be, nothing is printed on the standard output.
    ensures silent { result ≡ Status.Usage → out.new ≡ out.old }
    // Only that, and what stops the command, is printed on the other output.
    ensures quiet { (result ≡ Status.Usage) ⊎ ((result ≡ Status.Failed) ⊎ (err.new ≡ err.old)) }
{
    match &many.files {
        Several::Words(paths) => tell(rt, &many.each, paths.as_slice(), out, err),
        Several::Listed(words) => tell_listed(rt, &many.each, words, out, err),
    }
}

/// The same of the files that a list names. It is read whole before a file is opened.
fn tell_listed<R, O, E>(
    rt: &R,
    each: &Each<'_>,
    words: &ListWords<'_>,
    out: &mut O,
    err: &mut E,
) -> Status
where
    R: Files + AllocGlobal,
    R::File: Describes,
    O: Write,
    E: Write,
    ensures told { result ≢ Status.Usage
        → EndsMany R.File.remaining R.File.says each.now (Several.Listed words.now) result
        (O.contents out.old) (O.contents out.new) }
    ensures usage { result ≡ Status.Usage → AreUnlisted R.File.remaining (Several.Listed words.now) }
    ensures silent { result ≡ Status.Usage → out.new ≡ out.old }
    ensures quiet { (result ≡ Status.Usage) ⊎ ((result ≡ Status.Failed) ⊎ (err.new ≡ err.old)) }
{
    let text = match files::read_whole(rt, words.list) {
        Ok(text) => text,
        Err(failure) => return failure.report_error(err),
    };
    match named_in(rt.alloc(), text.as_slice(), words.null) {
        Ok(paths) => tell(rt, each, paths.as_slice(), out, err),
        Err(failure) => failure.report_error(err),
    }
}

/// The octet that ends a name in a list.
fn end_of(null: bool) -> u8
    ensures { result ≡ end_of null }
{
    if null { 0 } else { 10 }
}

/// The files that a list names.
///
/// Errors: it names none, or a name isn't UTF-8; memory is refused.
fn named_in(alloc: Global, text: &[u8], null: bool) -> Result<Vec<&str>, Failure<'static>>
    ensures named { IfOk result (λ paths.
        map (λ p. p.now) paths.items ≡ map path_of_name (names_of (end_of null) text.now)) }
    // They are some, each in UTF-8.
    ensures some { OnOk result (¬ (ListsNone (end_of null) text.now)) }
    // Only then it is a usage fault, of the option that names the list.
    ensures refused { IfErr result (λ f. (f ≡ Failure.Memory) ⊎ ((status_of f ≡ Status.Usage)
        × (failure_text f ≡ said (codes "usage") (codes "files-from")) × ListsNone (end_of null) text.now)) }
{
    match paths_in(alloc, text, end_of(null))? {
        Some(paths) if !paths.is_empty() => Ok(paths),
        _ => Err(Failure::Usage(LIST)),
    }
}

/// The same of the files of these paths.
fn tell<R, O, E>(rt: &R, each: &Each<'_>, paths: &[&str], out: &mut O, err: &mut E) -> Status
where
    R: Files + AllocGlobal,
    R::File: Describes,
    O: Write,
    E: Write,
    ensures told { EndsFiles R.File.remaining R.File.says each.now paths.now result (O.contents out.old)
        (O.contents out.new) }
    ensures silent { result ≢ Status.Usage }
    ensures quiet { (result ≡ Status.Failed) ⊎ (err.new ≡ err.old) }
{
    match all(rt, each, paths, out) {
        Ok(status) => status,
        Err(failure) => stop(rt.alloc(), &failure, out, err),
    }
}

/// Prints what is said of the files of these paths, and returns the worst status.
///
/// Errors: a list fails, or a line can't be printed.
fn all<'a, R: Files + AllocGlobal, O: Write>(
    rt: &R,
    each: &Each<'a>,
    paths: &[&'a str],
    out: &mut O,
) -> Result<Status, Failure<'a>>
where
    R::File: Describes,
    ensures told { IfOk result (TellsAll R.File.remaining R.File.says each.now paths.now (O.contents out.old)
        (O.contents out.new)) }
    ensures refused { IfErr result (TellsNotAll R.File.remaining R.File.says O.contents each.now paths.now out.old
        out.new) }
{
    match each {
        Each::Check(words) => check_all(rt, words, paths, out),
        Each::Fit(words) => fit_all(rt, words, paths, out),
        Each::Questions(words) => ask_all(rt, words, paths, out),
    }
}

ghost use Rattle.std.specs.Prelude.{◌≡◌, ◌⊎◌, ℕ, List, Some, IfErr, IfOk, OnOk};
ghost use Rattle.std.specs.Borrow.{Bor};
ghost use Rattle.std.specs.Io.KnownBytes.{Appends};
ghost use Rattle.cli_failures.specs.declared.failure.Failure.{Failure};
ghost use Rattle.cli_failures.specs.Failures.{status_of, failure_text};
ghost use Rattle.cli_failures.specs.Output.{Begins};
ghost use Rattle.cli_tasks.specs.declared.task.AttachWords.{AttachWords};
ghost use Rattle.cli_tasks.specs.declared.task.RequestWords.{RequestWords};
ghost use Rattle.cli_tasks.specs.declared.task.MatchWords.{MatchWords};
ghost use Rattle.cli_tasks.specs.declared.task.MigrateWords.{MigrateWords};
ghost use Rattle.cli_commands.specs.Attaching.{IsAttached};
ghost use Rattle.cli_commands.specs.Matching.{IsTokenWritten};
ghost use Rattle.cli_commands.specs.Migrating.{IsMigrated};
ghost use Rattle.cli_commands.specs.Requests.{IsRequestWritten};
ghost use Rattle.cli_commands.specs.Tasks.{IsApart, IsDoneBy, MakesText, FailsBy, MakesNoText, StopsBy, WritesApart};
ghost use Rattle.cli_commands.specs.Telling.{TellsMalformed, TellsRefusal};

use crate::asking::ask;
use crate::rereading::Describes;
use crate::{attaching, checking, comparing, fit, matching, migrating, request, show, stamping};
use cli_failures::output::put;
use cli_failures::{Failure, Status};
use cli_tasks::{Task, TextTask};
use std::io::Write;
use std::rt::Files;

/// Does a task, and reports how it ended.
///
/// What was requested goes to `out`; the reason why something was not done goes to `err`. The octets of files are what
/// `rt` gives.
pub fn run<R, O, E>(rt: &R, task: Task<'_>, out: &mut O, err: &mut E) -> Status
where
    R: Files + AllocGlobal,
    R::File: Describes,
    O: Write,
    E: Write,
    // With `Done` the output took what this task prints of what files hold, if it is known what it takes.
    ensures done { result ≡ Status.Done → (text : List ℕ) × IsDoneBy R.File.remaining task.entry text
        × Appends (O.contents out.old) (O.contents out.new) text }
    // A request that was to be made was written.
    ensures made { (words : RequestWords) → task.entry ≡ Task.Text (TextTask.Request words) → result ≡ Status.Done
        → IsRequestWritten R.File.remaining R.File.contents words }
    // The token of a response that answers was written, if it was wanted.
    ensures written { (words : MatchWords) (path : Bor (List ℕ)) → task.entry ≡ Task.Text (TextTask.Match words)
        → words.token ≡ Some path → result ≡ Status.Done → IsTokenWritten R.File.remaining R.File.contents }
    // The text of a list was written.
    ensures migrated { (words : MigrateWords) → task.entry ≡ Task.Text (TextTask.Migrate words) → result ≡ Status.Done
        → IsMigrated R.File.remaining R.File.contents }
    // The file with the token was written.
    ensures attached { (words : AttachWords) → task.entry ≡ Task.Text (TextTask.Attach words) → result ≡ Status.Done
        → IsAttached R.File.remaining R.File.contents words.signer }
    // The file that was written is none of those that were read, by their paths.
    ensures apart { result ≡ Status.Done → IsApart task.entry }
    // Why a file is refused is printed, and is a failure of this task.
    ensures told { (result ≡ Status.Malformed) ⊎ (result ≡ Status.Refused) → (f : Failure)
        × FailsBy R.File.remaining R.File.says task.entry f × (status_of f ≡ result)
        × Appends (O.contents out.old) (O.contents out.new) (failure_text f) }
    // With `Malformed` the output took a line of a file that is not of its form, if it is known what it takes.
    ensures malformed { result ≡ Status.Malformed → TellsMalformed (O.contents out.old) (O.contents out.new) }
    // With `Refused` the output took a line of a rule that refuses a file, if it is known what it takes.
    ensures refused { result ≡ Status.Refused → TellsRefusal (O.contents out.old) (O.contents out.new) }
    // With `Failed` the output took a beginning of what this task prints, or of the line of a failure that goes there.
    ensures cut { result ≡ Status.Failed → StopsBy R.File.remaining R.File.says task.entry (O.contents out.old)
        (O.contents out.new) }
    // If a value isn't as it must be, nothing is printed on the standard output.
    ensures silent { result ≡ Status.Usage → out.new ≡ out.old }
    // With `Usage` the failure is one of this task with that status.
    ensures usage { result ≡ Status.Usage → (f : Failure) × FailsBy R.File.remaining R.File.says task.entry f
        × (status_of f ≡ Status.Usage) }
    // Only that, and what failed, is printed on the other output.
    ensures quiet { (result ≡ Status.Usage) ⊎ ((result ≡ Status.Failed) ⊎ (err.new ≡ err.old)) }
{
    match task {
        Task::Questions(words) => match ask(rt, &words, out) {
            Ok(()) => Status::Done,
            Err(failure) => failure.report(out, err),
        },
        Task::Text(task) => match text_of(rt, task) {
            Ok(text) => put_text(text.as_slice(), out, err),
            Err(failure) => failure.report(out, err),
        },
    }
}

/// Does a task, and returns what is to be printed of it. Each command has its room on the stack apart from the others.
pub fn text_of<'a, R: Files + AllocGlobal>(
    rt: &R,
    task: TextTask<'a>,
) -> Result<Vec<u8>, Failure<'a>>
where
    R::File: Describes,
    // The text is the one that the task prints.
    ensures done { IfOk result (λ text. MakesText R.File.remaining task.entry text.items) }
    // The file of a request holds it.
    ensures made { (words : RequestWords) → task.entry ≡ TextTask.Request words
        → OnOk result (IsRequestWritten R.File.remaining R.File.contents words) }
    // If the token is wanted, its file holds it.
    ensures written { (words : MatchWords) (path : Bor (List ℕ)) → task.entry ≡ TextTask.Match words
        → words.token ≡ Some path → OnOk result (IsTokenWritten R.File.remaining R.File.contents) }
    // The file of the new list holds it.
    ensures migrated { (words : MigrateWords) → task.entry ≡ TextTask.Migrate words
        → OnOk result (IsMigrated R.File.remaining R.File.contents) }
    // The file holds the SignedData with the token.
    ensures attached { (words : AttachWords) → task.entry ≡ TextTask.Attach words
        → OnOk result (IsAttached R.File.remaining R.File.contents words.signer) }
    // By its path, the file that was written is none that was read, but for FILE of `attach`.
    ensures apart { OnOk result (WritesApart task.entry) }
    // The failure is one of the task's.
    ensures failed { IfErr result (MakesNoText R.File.remaining R.File.says task.entry) }
{
    match &task {
        TextTask::Request(words) => request::make_file(rt, words),
        TextTask::ShowRequest(path) => show::request(rt, path),
        TextTask::ShowResponse(path) => show::response(rt, path),
        TextTask::ShowTst(path) => show::tst(rt, path),
        TextTask::ShowSigned(path) => show::signed(rt, path),
        TextTask::ShowEvidence(path) => show::evidence(rt, path),
        TextTask::ShowCertificate(path) => show::certificate(rt, path),
        TextTask::Fit(words) => fit::fit(rt, words),
        TextTask::Match(words) => matching::matched(rt, words),
        TextTask::Check(words) => checking::check(rt, words),
        TextTask::Migrate(words) => migrating::migrate(rt, words),
        TextTask::Compare(words) => comparing::compare(rt, words),
        TextTask::Attach(words) => attaching::attach(rt, words),
        TextTask::CheckStamp(words) => stamping::check_stamp(rt, words),
        TextTask::AskStamp(words) => stamping::stamp_questions(rt, words),
    }
}

/// Prints a text; of an empty one nothing.
pub fn print<O: Write, E: Write>(text: &str, out: &mut O, err: &mut E) -> Status
    // Returns `Done` or `Failed`.
    ensures status { (result ≡ Status.Done) ⊎ (result ≡ Status.Failed) }
    // With `Done` the output took the text, if it is known what it takes.
    ensures told { result ≡ Status.Done → Appends (O.contents out.old) (O.contents out.new) text.now }
    // With `Failed` it took a beginning of the text.
    ensures cut { result ≡ Status.Failed → Begins (O.contents out.old) (O.contents out.new) text.now }
    // With `Done` nothing was put on the standard error.
    ensures quiet { result ≡ Status.Done → err.new ≡ err.old }
{
    put_text(text.as_bytes(), out, err)
}

/// The same for the octets of a text.
fn put_text<O: Write, E: Write>(text: &[u8], out: &mut O, err: &mut E) -> Status
    ensures status { (result ≡ Status.Done) ⊎ (result ≡ Status.Failed) }
    ensures told { result ≡ Status.Done → Appends (O.contents out.old) (O.contents out.new) text.now }
    ensures cut { result ≡ Status.Failed → Begins (O.contents out.old) (O.contents out.new) text.now }
    ensures quiet { result ≡ Status.Done → err.new ≡ err.old }
{
    if text.is_empty() {
        return Status::Done;
    }
    match put(out, text) {
        Ok(()) => Status::Done,
        Err(lost) => lost.report_error(err),
    }
}

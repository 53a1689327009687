//! What a command about evidence records does: its text is made first, and then printed.
ghost use Rattle.std.specs.Prelude.{◌≡◌, ◌≢◌, ◌⊎◌, ℕ, List, IfErr, IfOk, OnOk};
ghost use Rattle.std.specs.Io.KnownBytes.{Appends};
ghost use Rattle.cli_tasks.specs.declared.task.MakeWords.{MakeWords};
ghost use Rattle.cli_tasks.specs.declared.task.RehashRequestWords.{RehashRequestWords};
ghost use Rattle.cli_tasks.specs.declared.task.RehashWords.{RehashWords};
ghost use Rattle.cli_tasks.specs.declared.task.RenewWords.{RenewWords};
ghost use Rattle.cli_tasks.specs.declared.task.RenewalRequestWords.{RenewalRequestWords};
ghost use Rattle.cli_tasks.specs.declared.task.RootRequestWords.{RootRequestWords};
ghost use Rattle.cli_failures.specs.declared.failure.Failure.{Failure};
ghost use Rattle.cli_failures.specs.Failures.{failure_text, status_of};
ghost use Rattle.cli_failures.specs.Output.{Begins};
ghost use Rattle.cli_commands.specs.Telling.{TellsMalformed, TellsRefusal};
ghost use Rattle.cli_making.specs.Making.{AreRecordsWritten};
ghost use Rattle.cli_making.specs.Requesting.{IsRootRequestWritten};
ghost use Rattle.cli_renewing.specs.Renewing.{AreRecordsRenewed, IsApart, IsRenewalRequestWritten};
ghost use Rattle.cli_rehashing.specs.Rehashing.{AreRecordsAnew, IsRehashRequestWritten};
ghost use Rattle.cli_evidence.specs.Tasks.{FailsBy, IsDoneBy, StopsBy};

use crate::check::check_record;
use crate::questions::record_questions;
use crate::under::check_signed;
use cli_failures::output::put;
use cli_failures::{Failure, Status};
use cli_making::{make_records, make_root_request};
use cli_rehashing::{rehash_records, request_rehash};
use cli_renewing::{renew_records, request_renewal};
use cli_tasks::EvidenceTask;
use std::io::Write;
use std::rt::Files;

/// Does a task about evidence records, and reports how it ended.
///
/// What was requested goes to `out`; the reason why something was not done goes to `err`. The octets of files are what
/// `rt` gives.
pub fn run<R, O, E>(rt: &R, task: &EvidenceTask<'_>, out: &mut O, err: &mut E) -> Status
where
    R: Files + AllocGlobal,
    O: Write,
    E: Write,
    // With `Done` the output took what this task prints of what files hold, if it is known what it takes.
    ensures done { result ≡ Status.Done → (text : List ℕ) × IsDoneBy R.File.remaining task.now text
        × Appends (O.contents out.old) (O.contents out.new) text }
    // A request that was to be made was written.
    ensures requested { (words : RootRequestWords) → task.now ≡ EvidenceTask.Request words → result ≡ Status.Done
        → IsRootRequestWritten R.File.remaining R.File.contents words }
    // It was not written into the file of the sums, by their paths.
    ensures apart { (words : RootRequestWords) → task.now ≡ EvidenceTask.Request words → result ≡ Status.Done
        → words.out.now ≢ words.sums.now }
    // The records that were to be made were written.
    ensures made { (words : MakeWords) → task.now ≡ EvidenceTask.Make words → result ≡ Status.Done
        → AreRecordsWritten R.File.remaining R.File.contents words }
    // A request for a renewal that was to be made was written.
    ensures renewal { (words : RenewalRequestWords) → task.now ≡ EvidenceTask.RequestRenewal words
        → result ≡ Status.Done → IsRenewalRequestWritten R.File.remaining R.File.contents words }
    // It was not written into the file of a record, by their paths.
    ensures elsewhere { (words : RenewalRequestWords) → task.now ≡ EvidenceTask.RequestRenewal words
        → result ≡ Status.Done → IsApart words }
    // The records that were to be renewed are renewed, each in its place.
    ensures renewed { (words : RenewWords) → task.now ≡ EvidenceTask.Renew words → result ≡ Status.Done
        → AreRecordsRenewed R.File.remaining R.File.contents words }
    // A request for new chains that was to be made was written, and into no file of the sums or of a record.
    ensures asked { (words : RehashRequestWords) → task.now ≡ EvidenceTask.RequestRehash words
        → result ≡ Status.Done → IsRehashRequestWritten R.File.remaining R.File.contents words }
    // The records that were to get a new chain have it, each in its place.
    ensures rehashed { (words : RehashWords) → task.now ≡ EvidenceTask.Rehash words → result ≡ Status.Done
        → AreRecordsAnew R.File.remaining R.File.contents words }
    // Why a record is refused is printed, and is a failure of this task.
    ensures told { (result ≡ Status.Malformed) ⊎ (result ≡ Status.Refused) → (f : Failure)
        × FailsBy R.File.remaining R.File.contents task.now f × (status_of f ≡ result)
        × Appends (O.contents out.old) (O.contents out.new) (failure_text f) }
    // With `Malformed` the output took a line of a file that is not of its form, if it is known what it takes.
    ensures malformed { result ≡ Status.Malformed → TellsMalformed (O.contents out.old) (O.contents out.new) }
    // With `Refused` the output took a line of a rule that refuses a file, if it is known what it takes.
    ensures refused { result ≡ Status.Refused → TellsRefusal (O.contents out.old) (O.contents out.new) }
    // With `Failed` the output took a beginning of what this task prints, or of the line of a failure that goes there.
    ensures cut { result ≡ Status.Failed → StopsBy R.File.remaining R.File.contents task.now
        (O.contents out.old) (O.contents out.new) }
    // If a value isn't as it must be, nothing is printed on the standard output.
    ensures silent { result ≡ Status.Usage → out.new ≡ out.old }
    // With `Usage` the failure is one of this task with that status.
    ensures usage { result ≡ Status.Usage → (f : Failure) × FailsBy R.File.remaining R.File.contents task.now f
        × (status_of f ≡ Status.Usage) }
    // Only that, and what failed, is printed on the other output.
    ensures quiet { (result ≡ Status.Usage) ⊎ ((result ≡ Status.Failed) ⊎ (err.new ≡ err.old)) }
{
    match text_of(rt, task) {
        Ok(text) => put_text(text.as_slice(), out, err),
        Err(failure) => failure.report(out, err),
    }
}

/// What a task prints.
///
/// Errors: why it can't be had.
fn text_of<'a, R: Files + AllocGlobal>(
    rt: &R,
    task: &EvidenceTask<'a>,
) -> Result<Vec<u8>, Failure<'a>>
    ensures done { IfOk result (λ text. IsDoneBy R.File.remaining task.now text.items) }
    ensures requested { (words : RootRequestWords) → task.now ≡ EvidenceTask.Request words
        → OnOk result (IsRootRequestWritten R.File.remaining R.File.contents words) }
    ensures apart { (words : RootRequestWords) → task.now ≡ EvidenceTask.Request words
        → OnOk result (words.out.now ≢ words.sums.now) }
    ensures made { (words : MakeWords) → task.now ≡ EvidenceTask.Make words
        → OnOk result (AreRecordsWritten R.File.remaining R.File.contents words) }
    ensures renewal { (words : RenewalRequestWords) → task.now ≡ EvidenceTask.RequestRenewal words
        → OnOk result (IsRenewalRequestWritten R.File.remaining R.File.contents words) }
    ensures elsewhere { (words : RenewalRequestWords) → task.now ≡ EvidenceTask.RequestRenewal words
        → OnOk result (IsApart words) }
    ensures renewed { (words : RenewWords) → task.now ≡ EvidenceTask.Renew words
        → OnOk result (AreRecordsRenewed R.File.remaining R.File.contents words) }
    ensures asked { (words : RehashRequestWords) → task.now ≡ EvidenceTask.RequestRehash words
        → OnOk result (IsRehashRequestWritten R.File.remaining R.File.contents words) }
    ensures rehashed { (words : RehashWords) → task.now ≡ EvidenceTask.Rehash words
        → OnOk result (AreRecordsAnew R.File.remaining R.File.contents words) }
    ensures failed { IfErr result (FailsBy R.File.remaining R.File.contents task.now) }
{
    match task {
        EvidenceTask::Check(words) => check_record(rt, words),
        EvidenceTask::CheckUnder(words) => check_signed(rt, words),
        EvidenceTask::Questions(words) => record_questions(rt, words),
        EvidenceTask::Request(words) => make_root_request(rt, words),
        EvidenceTask::Make(words) => make_records(rt, words),
        EvidenceTask::RequestRenewal(words) => request_renewal(rt, words),
        EvidenceTask::Renew(words) => renew_records(rt, words),
        EvidenceTask::RequestRehash(words) => request_rehash(rt, words),
        EvidenceTask::Rehash(words) => rehash_records(rt, words),
    }
}

/// Prints the octets of a text; of an empty one nothing.
fn put_text<O: Write, E: Write>(text: &[u8], out: &mut O, err: &mut E) -> Status
    ensures status { (result ≡ Status.Done) ⊎ (result ≡ Status.Failed) }
    ensures told { result ≡ Status.Done → Appends (O.contents out.old) (O.contents out.new) text.now }
    ensures cut { result ≡ Status.Failed → Begins (O.contents out.old) (O.contents out.new) text.now }
    ensures quiet { result ≡ Status.Done → err.new ≡ err.old }
{
    if text.is_empty() {
        return Status::Done;
    }
    match put(out, text) {
        Ok(()) => Status::Done,
        Err(lost) => lost.report_error(err),
    }
}

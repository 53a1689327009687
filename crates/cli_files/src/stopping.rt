//! What is reported when a command stops.
ghost use Rattle.std.specs.Prelude.{◌≡◌, ◌⊎◌, IfErr, MatchResult, OnOk};
ghost use Rattle.std.specs.Io.KnownBytes.{Appends};
ghost use Rattle.cli_failures.specs.Failures.{failure_text, status_of};
ghost use Rattle.cli_failures.specs.Output.{Begins, IsLost};

use cli_failures::output::put;
use cli_failures::{Failure, Status};
use std::alloc::Global;
use std::io::Write;

/// Reports why a command stopped: what was found in a list on the standard output, and everything else on the standard
/// error.
pub fn stop<O: Write, E: Write>(
    alloc: Global,
    failure: &Failure<'_>,
    out: &mut O,
    err: &mut E,
) -> Status
    // It is the status of the failure, but for a line on the standard output that was lost.
    ensures status { (result ≡ status_of failure.now)
        ⊎ ((status_of failure.now ≡ Status.Malformed) × (result ≡ Status.Failed)) }
    ensures told { result ≡ Status.Malformed → Appends (O.contents out.old) (O.contents out.new)
        (failure_text failure.now) }
    ensures cut { Begins (O.contents out.old) (O.contents out.new) (failure_text failure.now) }
    ensures kept { status_of failure.now ≡ Status.Failed → out.new ≡ out.old }
    ensures quiet { (result ≡ Status.Malformed) → err.new ≡ err.old }
{
    match failure.status() {
        Status::Malformed => ended(failure, put_text(alloc, failure, out), err),
        _ => failure.report_error(err),
    }
}

/// How a command ended that printed the line of a failure, or lost it, which it reports on the standard error.
fn ended<E: Write>(failure: &Failure<'_>, printed: Result<(), Failure<'_>>, err: &mut E) -> Status
    // It is the status of the failure, unless its line was lost.
    ensures status { MatchResult printed.entry (λ _. result ≡ status_of failure.now) (λ lost. result ≡ status_of lost) }
    ensures quiet { OnOk printed.entry (err.new ≡ err.old) }
{
    match printed {
        Ok(()) => failure.status(),
        Err(lost) => lost.report_error(err),
    }
}

/// Prints the line of a failure.
fn put_text<'a, O: Write>(
    alloc: Global,
    failure: &Failure<'_>,
    out: &mut O,
) -> Result<(), Failure<'a>>
    ensures put { OnOk result (Appends (O.contents out.old) (O.contents out.new) (failure_text failure.now)) }
    ensures cut { IfErr result (λ f. IsLost f
        × Begins (O.contents out.old) (O.contents out.new) (failure_text failure.now)) }
{
    let text = format!(in alloc; "{failure}")?;
    put(out, text.as_bytes())
}

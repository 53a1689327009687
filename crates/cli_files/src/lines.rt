//! The line of a file, printed.
ghost use Rattle.std.specs.Prelude.{◌≡◌, ◌++◌, ℕ, List, IfErr, IfOk, OnOk};
ghost use Rattle.std.specs.Io.KnownBytes.{Appends};
ghost use Rattle.cli_failures.specs.declared.status.Status.{Status};
ghost use Rattle.cli_failures.specs.Failures.{failure_text, status_of};
ghost use Rattle.cli_failures.specs.Output.{Begins, IsLost};
ghost use Rattle.cli_files.specs.Lines.{IsSaid};
ghost use Rattle.cli_files.specs.Names.{line_of};

use crate::names::line_of;
use cli_failures::output::put;
use cli_failures::{Failure, Status};
use std::alloc::Global;
use std::io::Write;

/// Prints the line of a file of which a command said this, and returns how that command ended.
///
/// Errors: memory runs out for the line, or the output fails.
pub fn put_said<'a, O: Write>(
    alloc: Global,
    path: &str,
    said: &Result<Vec<u8>, Failure<'_>>,
    out: &mut O,
) -> Result<Status, Failure<'a>>
    ensures put { IfOk result (λ ends. (text : List ℕ) × IsSaid (λ v. v.items) said.now text ends
        × Appends (O.contents out.old) (O.contents out.new) (line_of path.now text)) }
    ensures lost { IfErr result (λ f. IsLost f × ((text : List ℕ) × (ends : Status)
        × IsSaid (λ v. v.items) said.now text ends
        × Begins (O.contents out.old) (O.contents out.new) (line_of path.now text))) }
{
    match said {
        Ok(text) => {
            put_line(alloc, b"", path, text.as_slice(), out)?;
            Ok(Status::Done)
        }
        Err(failure) => put_failure(alloc, b"", path, failure, out),
    }
}

/// Prints this front, and the line of a file that a command failed for, and returns how that command ended.
pub fn put_failure<'a, O: Write>(
    alloc: Global,
    front: &[u8],
    path: &str,
    failure: &Failure<'_>,
    out: &mut O,
) -> Result<Status, Failure<'a>>
    ensures put { IfOk result
        (λ ends. (ends ≡ status_of failure.now) × Appends (O.contents out.old) (O.contents out.new)
        (front.now ++ line_of path.now (failure_text failure.now))) }
    ensures lost { IfErr result (λ f. IsLost f × Begins (O.contents out.old) (O.contents out.new)
        (front.now ++ line_of path.now (failure_text failure.now))) }
{
    let text = format!(in alloc; "{failure}")?;
    put_line(alloc, front, path, text.as_bytes(), out)?;
    Ok(failure.status())
}

/// Prints this front, and the line of a file of which a command said this text.
fn put_line<'a, O: Write>(
    alloc: Global,
    front: &[u8],
    path: &str,
    text: &[u8],
    out: &mut O,
) -> Result<(), Failure<'a>>
    ensures put { OnOk result (Appends (O.contents out.old) (O.contents out.new)
        (front.now ++ line_of path.now text.now)) }
    ensures lost { IfErr result (λ f. IsLost f × Begins (O.contents out.old) (O.contents out.new)
        (front.now ++ line_of path.now text.now)) }
{
    let line = line_of(alloc, front, path, text)?;
    put(out, line.as_slice())
}

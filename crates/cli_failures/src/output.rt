//! Octets that are put on the standard output.
ghost use Rattle.std.specs.Prelude.{IfErr, OnOk};
ghost use Rattle.std.specs.Io.KnownBytes.{Appends};
ghost use Rattle.cli_failures.specs.Output.{Begins, IsLost};

use crate::failure::{Failure, STANDARD_OUTPUT};
use std::io::Write;

/// Writes all the octets. Of a writer that fails `write_all` promises nothing: this says what it took.
///
/// Errors: the writer fails, or takes no more; it isn't asked again.
pub fn put<'a, O: Write>(out: &mut O, octets: &[u8]) -> Result<(), Failure<'a>>
    // After a success it took all the octets, if it is known what it takes.
    ensures all { OnOk result (Appends (O.contents out.old) (O.contents out.new) octets.now) }
    // After a failure it took a beginning of them.
    ensures cut { IfErr result (λ f. IsLost f × Begins (O.contents out.old) (O.contents out.new) octets.now) }
{
    let mut left = octets;
    while !left.is_empty() {
        match out.write(left) {
            Ok(taken) if taken > 0 => left = &left[taken..],
            _ => return Err(Failure::Write(STANDARD_OUTPUT)),
        }
    }
    match out.flush() {
        Ok(()) => Ok(()),
        Err(_) => Err(Failure::Write(STANDARD_OUTPUT)),
    }
}

ghost use Rattle.std.specs.Prelude.{IfErr, IfOk};
ghost use Rattle.cli_commands.specs.Lists.{IsAnswersOf, IsFailureOfAnswers, IsFailureOfTrust, IsTrustOf};

use cli_failures::{Failure, files};
use list_answers::Answers;
use std::rt::Files;
use trust_lists::Trust;

/// The trust list that the file of this path holds.
#[tactic(auto, using(crate::proofs::ListFaults::no_trust))]
pub fn trust_in<'p, R: Files + AllocGlobal>(rt: &R, path: &'p str) -> Result<Trust, Failure<'p>>
    // It is the list that a file holds.
    ensures found { IfOk result (IsTrustOf R.File.remaining) }
    // It was not read, or it is not as a list must be.
    ensures refused { IfErr result (IsFailureOfTrust R.File.remaining path.entry) }
{
    let text = files::read_whole(rt, path)?;
    Ok(Trust::read(rt.alloc(), text.as_slice())?)
}

/// The answers list that the file of this path holds.
#[tactic(auto, using(crate::proofs::ListFaults::no_answers))]
pub fn answers_in<'p, R: Files + AllocGlobal>(rt: &R, path: &'p str) -> Result<Answers, Failure<'p>>
    // It is the list that a file holds.
    ensures found { IfOk result (IsAnswersOf R.File.remaining) }
    // It was not read, or it is not as a list must be.
    ensures refused { IfErr result (IsFailureOfAnswers R.File.remaining path.entry) }
{
    let text = files::read_whole(rt, path)?;
    Ok(Answers::read(rt.alloc(), text.as_slice())?)
}

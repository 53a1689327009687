//! What a check goes by: values that its words state, and the lists that they name.
ghost use Rattle.std.specs.Prelude.{◌≡◌, ◌⊎◌, Any, IfErr, IfOk, IsSomeAnd, codes};
ghost use Rattle.cli_failures.specs.Causes.{Names};
ghost use Rattle.cli_failures.specs.Ends.{StatesNoEnd, StatesNoTime};
ghost use Rattle.cli_evidence.specs.Checking.{AreEndsIn, IsMomentAt, RefusesBy};
ghost use Rattle.cli_evidence.specs.Stating.{IsStated};

use cli_commands::{answers_in, trust_in};
use cli_failures::Failure;
use cli_failures::ends::{end_of, moment_of};
use der_time::Moment;
use evidence_stamps::End;
use list_answers::Answers;
use std::alloc::Global;
use std::rt::Files;
use trust_lists::Trust;

/// What a check goes by, but for whether a record may have other hash values than those of its data.
#[derive(Drop)]
pub(crate) struct Stated {
    /// Until when algorithms hold.
    pub(crate) ends: Vec<End>,
    /// When the last time-stamp of a record must hold, if the words say.
    pub(crate) at: Option<Moment>,
    /// The trusted entries.
    pub(crate) trust: Trust,
    /// What the verifier vouches for.
    pub(crate) answers: Answers,
}

/// What these words state, and the lists of these paths.
///
/// The words are judged first, then the trust list is opened, read and judged, and then the answers list.
pub(crate) fn stated_in<'a, R: Files + AllocGlobal>(
    rt: &R,
    ends: &Vec<&'a str>,
    at: Option<&'a str>,
    trust: &'a str,
    answers: &'a str,
) -> Result<Stated, Failure<'a>>
    ensures found { IfOk result (IsStated R.File.remaining ends.now.items at.entry) }
    // There is nothing after the lists that could be refused.
    ensures refused { IfErr result
        (RefusesBy R.File.remaining ends.now.items at.entry trust.entry answers.entry (λ f. ⊥)) }
{
    let ends = ends_of(rt.alloc(), ends)?;
    let at = moment_at(at)?;
    let trust = trust_in(rt, trust)?;
    let answers = answers_in(rt, answers)?;
    Ok(Stated {
        ends,
        at,
        trust,
        answers,
    })
}

/// The ends that these words state, in their order.
///
/// Errors: `Usage`, which names `end`, at the first word that states none; memory that is refused.
fn ends_of<'a>(alloc: Global, words: &Vec<&str>) -> Result<Vec<End>, Failure<'a>>
    ensures found { IfOk result (λ ends. AreEndsIn words.now.items ends.items) }
    ensures refused { IfErr result (λ f. (f ≡ Failure.Memory)
        ⊎ (Names (codes "end") f × Any (λ word. StatesNoEnd word.now) words.now.items)) }
{
    let mut ends = Vec::new(alloc);
    for word in words {
        ends.push(end_of(word)?)?;
    }
    Ok(ends)
}

/// The moment that a word states, if there is one.
fn moment_at<'a>(at: Option<&str>) -> Result<Option<Moment>, Failure<'a>>
    ensures found { IfOk result (IsMomentAt at.entry) }
    ensures refused { IfErr result (λ f. Names (codes "at") f
        × IsSomeAnd at.entry (λ text. StatesNoTime text.now)) }
{
    match at {
        None => Ok(None),
        Some(text) => Ok(Some(moment_of(text)?)),
    }
}

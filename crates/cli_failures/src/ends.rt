//! How long digest algorithms hold, as words of a command, or of a call, say it.
ghost use Rattle.std.specs.Prelude.{IfErr, IfOk, codes};
ghost use Rattle.cli_failures.specs.Causes.{Names};
ghost use Rattle.cli_failures.specs.Ends.{IsEndIn, IsTimeIn, StatesNoEnd, StatesNoTime};

use crate::failure::Failure;
use der_time::{Moment, read_generalized};
use digests::Alg;
use evidence_stamps::End;

/// The moment that a text states, the contents of a GeneralizedTime (X.690 11.7; RFC 3161 2.4.2).
///
/// Errors: `Usage`, which names `at`, if the text is none.
pub fn moment_of<'a>(text: &str) -> Result<Moment, Failure<'a>>
    // The text states this moment.
    ensures found { IfOk result (IsTimeIn text.now) }
    // It states none, and `at` is named.
    ensures refused { IfErr result (λ f. Names (codes "at") f × StatesNoTime text.now) }
{
    match read_generalized(text.as_bytes(), 0) {
        Ok(moment) => Ok(moment),
        Err(_) => Err(Failure::Usage("at")),
    }
}

/// The end that a word states: the algorithm's name, as `--alg` has it, `=`, and the last moment at which it holds.
///
/// Errors: `Usage`, which names `end`, if the word states none.
pub fn end_of<'a>(word: &str) -> Result<End, Failure<'a>>
    // The word states this end.
    ensures found { IfOk result (IsEndIn word.now) }
    // It states none, and `end` is named.
    ensures refused { IfErr result (λ f. Names (codes "end") f × StatesNoEnd word.now) }
{
    let Some((name, time)) = word.split_once('=') else {
        return Err(Failure::Usage("end"));
    };
    let Some(alg) = Alg::named(name) else {
        return Err(Failure::Usage("end"));
    };
    let Ok(last) = moment_of(time) else {
        return Err(Failure::Usage("end"));
    };
    Ok(End::of(alg, last))
}

//! The ends of digest algorithms, and the moment, that a caller states in words.
ghost use Rattle.std.specs.Prelude.{◌≡◌, ◌⊎◌, IfErr, IfOk};
ghost use Rattle.std.specs.List.{AllZip};
ghost use Rattle.cli_failures.specs.Ends.{IsEndIn};
ghost use Rattle.library_records.specs.Stated.{RefusesAt, RefusesEnds, RefusesWord, StatesAt, StatesEnds, words_of};

use cli_failures::Failure;
use cli_failures::ends::{end_of, moment_of};
use der_time::Moment;
use evidence_stamps::End;
use std::alloc::Global;
use std::str;

/// The ends that the words of a text state.
fn ends_in(alloc: Global, text: &str) -> Result<Vec<End>, Failure<'static>>
    ensures found { IfOk result (λ v. AllZip IsEndIn (words_of text.now) v.items) }
    ensures refused { IfErr result (λ f. (f ≡ Failure.Memory) ⊎ RefusesWord text.now f) }
{
    let mut ends = Vec::new(alloc);
    let mut left = text;
    while let Some((word, others)) = left.split_once(' ') {
        ends.push(end_of(word)?)?;
        left = others;
    }
    ends.push(end_of(left)?)?;
    Ok(ends)
}

/// The ends that a text states, if it states any.
pub(crate) fn ends_of(alloc: Global, text: &[u8]) -> Result<Vec<End>, Failure<'static>>
    ensures found { IfOk result (λ v. StatesEnds text.now v.items) }
    ensures refused { IfErr result (λ f. (f ≡ Failure.Memory) ⊎ RefusesEnds text.now f) }
{
    if text.is_empty() {
        return Ok(Vec::new(alloc));
    }
    match str::from_utf8(text) {
        Ok(text) => ends_in(alloc, text),
        Err(_) => Err(Failure::Usage("end")),
    }
}

/// The moment that a text states, if it states any.
pub(crate) fn at_of(text: &[u8]) -> Result<Option<Moment>, Failure<'static>>
    ensures found { IfOk result (StatesAt text.now) }
    ensures refused { IfErr result (RefusesAt text.now) }
{
    if text.is_empty() {
        return Ok(None);
    }
    let Ok(text) = str::from_utf8(text) else {
        return Err(Failure::Usage("at"));
    };
    match moment_of(text) {
        Ok(moment) => Ok(Some(moment)),
        Err(why) => Err(why),
    }
}

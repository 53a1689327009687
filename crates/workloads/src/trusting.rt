//! A verifier that vouches for every signature, and the lines of verdicts.

use crate::results::Results;
use cmsproof_api::{
    Accepted, Checker, FromWrite, Pass, Policy, Question, Refused, Slice, Trust, Verifier, check,
    check_stream, check_stream_by, listed_algorithms, report,
};
use list_answers::AskFault;

/// A verdict about a file.
pub(crate) type Verdict = Result<Accepted, Refused>;

/// A verifier that vouches for every signature.
#[derive(Drop)]
pub(crate) struct Always;

impl Verifier for Always {
    ghost use Rattle.std.specs.Prelude.{true};

    ghost vouches = { λ _ _. true };

    ghost failures = { λ _. 0 };

    ghost asked_only = { λ _ _ _. Unit {0} };

    ghost asked_nothing = { λ _ _. tt };

    ghost asked_further = { λ _ _ _ _ _ _. tt };

    fn ask(&mut self, _question: &Question<'_>) -> Result<bool, AskFault> {
        Ok(true)
    }
}

/// A policy that takes SHA-1 nowhere.
pub(crate) fn policy() -> Policy {
    Policy::with_sha1(false)
}

/// No content that is handed in.
pub(crate) fn none() -> Option<Slice<'static>> {
    None
}

/// Takes the line of a verdict.
pub(crate) fn take_verdict(verdict: &Verdict, results: &mut Results) {
    results.accept_if(verdict.is_ok());
    let mut line = FromWrite::new(Vec::new(results.alloc));
    let written = report(verdict, &mut line);
    results.note(written.is_ok(), "a line of a verdict was not written");
    results.take(line.into_inner().as_slice());
}

/// The verdict about a file in memory.
pub(crate) fn verdict<V: Verifier>(file: &[u8], trust: &Trust, verifier: &mut V) -> Verdict {
    check(file, &mut none(), trust, &policy(), verifier)
}

/// The verdict about a file that is read in pieces. One that doesn't come through a pipe can be read again, as the
/// command `check` does it: by the algorithms that the file lists, and if a signer names another one, by all.
pub(crate) fn stream_verdict(file: &[u8], buffer: &mut [u8], pipe: bool, trust: &Trust) -> Verdict {
    if let Some(verdict) = listed_verdict(file, buffer, pipe, trust) {
        return verdict;
    }
    check_stream(
        &mut Slice::new(file),
        &mut none(),
        buffer,
        trust,
        &policy(),
        &mut Always,
    )
}

// The verdict by the algorithms that a file lists, if it can be read again and no signer names another one.
fn listed_verdict(file: &[u8], buffer: &mut [u8], pipe: bool, trust: &Trust) -> Option<Verdict> {
    if pipe {
        return None;
    }
    let listed = listed_algorithms(&mut Slice::new(file));
    check_stream_by(
        &mut Pass::new(),
        &mut Checker::of(trust, policy()),
        &mut Slice::new(file),
        &mut none(),
        buffer,
        &mut Always,
        listed,
    )
}

/// Takes the verdict about a file that is read so, and of which so many octets are kept at most.
pub(crate) fn take_streamed(
    file: &[u8],
    (room, pipe): (usize, bool),
    trust: &Trust,
    results: &mut Results,
) {
    match vec![in results.alloc; 0; room] {
        Ok(mut buffer) => {
            let verdict = stream_verdict(file, buffer.as_mut_slice(), pipe, trust);
            take_verdict(&verdict, results);
        }
        Err(_) => results.note(false, "no memory"),
    }
}

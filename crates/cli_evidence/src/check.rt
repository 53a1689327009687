//! `evidence check`: whether an evidence record shows that data existed (RFC 4998 5.3).
ghost use Rattle.std.specs.Prelude.{◌≡◌, ◌⊎◌, Any, IfErr, IfOk, MatchResult};
ghost use Rattle.judge_evidence.specs.RecordVerdicts.{IsWanted};
ghost use Rattle.cli_failures.specs.Files.{IsFailureToOpen};
ghost use Rattle.cli_evidence.specs.Checking.{AcceptsData, RefusesData};
ghost use Rattle.cli_evidence.specs.Digesting.{AreDigested, IsDigested, IsUndigested, TellsUnwanted};
ghost use Rattle.cli_evidence.specs.Verdicts.{TellsAccepted, TellsRefused};

use crate::stated::stated_in;
use check_evidence::EvidenceRefused;
use check_fit::digests_from;
use check_verdict::Accepted;
use cli_commands::line_of;
use cli_failures::{Failure, files};
use cli_tasks::EvidenceWords;
use devices::FromRead;
use digests::{Algs, WantedDigests};
use judge_evidence::{check_evidence, wanted_by};
use std::alloc::Global;
use std::rt::Files;

/// The line that says by when the data of these words existed, if the record shows it.
///
/// The words are judged first, then the trust list is opened, read and judged, then the answers list, and then the
/// record. If its data are open, each file of data is opened and read once, in pieces: it is digested by the algorithms
/// that the record wants.
#[inline(never)]
pub fn check_record<'a, R: Files + AllocGlobal>(
    rt: &R,
    words: &EvidenceWords<'a>,
) -> Result<Vec<u8>, Failure<'a>>
    ensures accepted { IfOk result (λ line. AcceptsData R.File.remaining words.now line.items) }
    ensures refused { IfErr result (RefusesData R.File.remaining words.now) }
{
    let mut by = stated_in(rt, &words.ends, words.at, words.trust, words.answers)?;
    let at = by.at;
    let octets = files::read_whole(rt, words.record)?;
    let record = octets.as_slice();
    let wanted = wanted_of(record)?;
    let digests = digests_of_all(rt, wanted, words)?;
    let verdict = check_evidence(
        rt.alloc(),
        record,
        digests.as_slice(),
        &by.trust,
        by.ends.as_slice(),
        at,
        words.whole,
        &mut by.answers,
    );
    told(rt.alloc(), verdict)
}

/// The algorithms by which the data of a record must be digested.
///
/// Errors: V1 and V2.
fn wanted_of<'a>(octets: &[u8]) -> Result<Algs, Failure<'a>>
    ensures found { IfOk result (λ wanted. IsWanted octets.now (Ok wanted)) }
    ensures refused { IfErr result (TellsUnwanted octets.now) }
{
    match wanted_by(octets) {
        Ok(wanted) => Ok(wanted),
        Err(rule) => Err(Failure::Unshown(EvidenceRefused::Record(rule))),
    }
}

/// The digests by these algorithms of the file of this path, which is opened and read to its end.
///
/// Errors: it can't be opened; X1 and X5.
fn digests_of<'a, R: Files>(
    rt: &R,
    wanted: Algs,
    path: &'a str,
) -> Result<WantedDigests, Failure<'a>>
    ensures found { IfOk result (IsDigested R.File.remaining wanted) }
    ensures refused { IfErr result (λ f. IsFailureToOpen path.entry f ⊎ IsUndigested R.File.remaining f) }
{
    let mut data = FromRead::new(files::open(rt, path)?);
    match digests_from(wanted, &mut data) {
        Ok(digests) => Ok(digests),
        Err(fault) => Err(Failure::Unshown(EvidenceRefused::Device(fault))),
    }
}

/// The digests by these algorithms of the files of data of these words, in their order.
///
/// Errors: those of the first file that has none; memory that is refused.
fn digests_of_all<'a, R: Files + AllocGlobal>(
    rt: &R,
    wanted: Algs,
    words: &EvidenceWords<'a>,
) -> Result<Vec<WantedDigests>, Failure<'a>>
    ensures found { IfOk result (λ digests.
        AreDigested R.File.remaining wanted words.now.data.items digests.items) }
    ensures refused { IfErr result (λ f. (f ≡ Failure.Memory)
        ⊎ (Any (λ path. IsFailureToOpen path f) words.now.data.items ⊎ IsUndigested R.File.remaining f)) }
{
    let mut all = Vec::new(rt.alloc());
    for path in &words.data {
        all.push(digests_of(rt, wanted, path)?)?;
    }
    Ok(all)
}

/// The line of a verdict, if it accepts.
///
/// Errors: `Unshown`, with why it doesn't; memory is refused for the line.
fn told<'a>(
    alloc: Global,
    verdict: Result<Accepted, EvidenceRefused>,
) -> Result<Vec<u8>, Failure<'a>>
    ensures { MatchResult result (λ line. TellsAccepted verdict line.items) (TellsRefused verdict) }
{
    match verdict {
        Ok(accepted) => line_of(alloc, Ok(accepted)),
        Err(refused) => Err(Failure::Unshown(refused)),
    }
}

//! `check --evidence`: whether a signed file is accepted under an evidence record (RFC 4998 1.1, 5.3).
ghost use Rattle.std.specs.Prelude.{◌≡◌, Bool, IfErr, IfOk, IfSome, IsSomeAnd, MatchBool, MatchResult, option_map};
ghost use Rattle.std.specs.List.{AllByRecursion};
ghost use Rattle.digests.specs.Selection.{AreOfWanted, set_given};
ghost use Rattle.evidence_types.specs.EvidenceValue.{EvidenceValue, EncodesEvidence};
ghost use Rattle.judge_evidence.specs.Data.{AreOfData, HaveWanted};
ghost use Rattle.judge_evidence.specs.RecordVerdicts.{IsWanted};
ghost use Rattle.trust_lists.specs.Asking.{Asked, is_among};
ghost use Rattle.check_under.specs.Given.{grounds_under};
ghost use Rattle.check_under.specs.Under.{data_of};
ghost use Rattle.cli_failures.specs.Files.{IsFailureToRead};
ghost use Rattle.cli_evidence.specs.Under.{AcceptsUnder, IsHandedIn, RefusesUnder};
ghost use Rattle.cli_evidence.specs.UnderVerdicts.{IsShort, IsTooLong, IsVerdictWithin, TellsNotUnder, TellsUnder};
ghost use Rattle.cli_evidence.specs.UnderVerdicts.{TellsUnwantedUnder};

use crate::stated::stated_in;
use check_evidence::EvidenceRefused;
use check_fit::{DeviceFault, Refused};
use check_under::{UnderRecord, UnderRefused, check_under};
use check_verdict::Accepted;
use cli_commands::{limit_of, line_of};
use cli_failures::{Failure, OfRecord, files};
use cli_tasks::UnderWords;
use cms_stream::Pass;
use devices::{Slice, Source};
use digests::{Algs, Wanted, WantedDigests};
use judge_evidence::wanted_by;
use list_answers::Answers;
use std::alloc::{AllocError, Global};
use std::rt::Files;

/// The line that says by when each signature of the file of these words existed, if it is accepted under the record.
///
/// The words are judged first, then the trust list is opened, read and judged, then the answers list, and then the
/// record. If its data are open, the file, and then the content if one is handed in, are opened and read whole, once.
/// So what is digested for the record is what is judged, whatever becomes of the files meanwhile.
#[inline(never)]
pub fn check_signed<'a, R: Files + AllocGlobal>(
    rt: &R,
    words: &UnderWords<'a>,
) -> Result<Vec<u8>, Failure<'a>>
    ensures accepted { IfOk result (λ line. AcceptsUnder R.File.remaining words.now line.items) }
    ensures refused { IfErr result (RefusesUnder R.File.remaining words.now) }
{
    let mut by = stated_in(rt, &words.ends, words.at, words.trust, words.answers)?;
    let at = by.at;
    let octets = files::read_whole(rt, words.record)?;
    let record = octets.as_slice();
    let wanted = wanted_under(record)?;
    let read = files::read_whole(rt, words.file)?;
    let file = read.as_slice();
    let content = content_in(rt, words.content)?;
    let handed = slice_of(&content);
    let digests = digests_of_both(rt.alloc(), wanted, file, handed)?;
    let under = UnderRecord {
        octets: record,
        digests: digests.as_slice(),
        trust: &by.trust,
        ends: by.ends.as_slice(),
        at,
        whole: false,
    };
    let limit = limit_of(words.buffer, true);
    let verdict = verdict_within(rt.alloc(), &under, file, handed, limit, &mut by.answers)?;
    told_under(rt.alloc(), verdict)
}

/// The algorithms by which the data of a record must be digested.
///
/// Errors: V1 and V2.
fn wanted_under<'a>(octets: &[u8]) -> Result<Algs, Failure<'a>>
    ensures found { IfOk result (λ wanted. IsWanted octets.now (Ok wanted)) }
    ensures refused { IfErr result (TellsUnwantedUnder octets.now) }
{
    match wanted_by(octets) {
        Ok(wanted) => Ok(wanted),
        Err(rule) => Err(Failure::Unevidenced(OfRecord {
            refused: EvidenceRefused::Record(rule),
        })),
    }
}

/// All the octets of the content's file, if one is handed in.
fn content_in<'a, R: Files + AllocGlobal>(
    rt: &R,
    path: Option<&'a str>,
) -> Result<Option<Vec<u8>>, Failure<'a>>
    ensures found { IfOk result
        (λ content. IsHandedIn R.File.remaining path.entry (option_map (λ v. v.items) content)) }
    ensures short { IfOk result (λ content. IsShort (option_map (λ v. v.items) content)) }
    ensures refused { IfErr result (λ f. IsSomeAnd path.entry (λ p. IsFailureToRead p f)) }
{
    match path {
        None => Ok(None),
        Some(path) => Ok(Some(files::read_whole(rt, path)?)),
    }
}

/// The octets, if there are any.
fn slice_of(content: &Option<Vec<u8>>) -> Option<&[u8]>
    ensures { option_map (λ s. s.now) result ≡ option_map (λ v. v.items) content.now }
{
    match content {
        None => None,
        Some(octets) => Some(octets.as_slice()),
    }
}

/// The octets as a source, if there are any.
fn source_of<'b>(handed: Option<&'b [u8]>) -> Option<Slice<'b>>
    ensures known { IfSome result ⟦<Slice<'b> as Source>⟧.tells }
    ensures rest { option_map ⟦<Slice<'b> as Source>⟧.rest result ≡ option_map (λ s. s.now) handed.entry }
{
    match handed {
        None => None,
        Some(octets) => Some(Slice::new(octets)),
    }
}

/// The digests of octets by these algorithms.
fn digests_in(wanted: Algs, octets: &[u8]) -> WantedDigests
    ensures given { set_given result ≡ wanted }
    ensures are { AreOfWanted result octets.now }
{
    let mut hashers = Wanted::new(wanted);
    hashers.update(octets);
    hashers.finish()
}

/// The digests by these algorithms of the file, and then of the content, if one is handed in.
fn digests_of_both(
    alloc: Global,
    wanted: Algs,
    file: &[u8],
    handed: Option<&[u8]>,
) -> Result<Vec<WantedDigests>, AllocError>
    ensures given { IfOk result (λ digests. AllByRecursion (λ d. set_given d ≡ wanted) digests.items) }
    ensures are { IfOk result (λ digests.
        AreOfData digests.items (data_of file.now (option_map (λ s. s.now) handed.entry))) }
{
    let mut digests = Vec::new(alloc);
    digests.push(digests_in(wanted, file))?;
    if let Some(content) = handed {
        digests.push(digests_in(wanted, content))?;
    }
    Ok(digests)
}

/// The verdict about a signed file, and a content if one is handed in, under a record, where no more octets of the file
/// may be kept than this limit.
///
/// No more of a file must be kept than it has, unless its headers state more than that. If they do, there is another
/// try with all the room that there may be, which names what is wrong with the file.
fn verdict_within(
    alloc: Global,
    under: &UnderRecord<'_>,
    file: &[u8],
    handed: Option<&[u8]>,
    limit: u64,
    answers: &mut Answers,
) -> Result<Result<Accepted, UnderRefused>, AllocError>
    requires wanted { (v : EvidenceValue) → EncodesEvidence under.now.octets.now v
        → HaveWanted v.chains under.now.digests.now }
    requires are { AreOfData under.now.digests.now (data_of file.now (option_map (λ s. s.now) handed)) }
    requires short { IsShort (option_map (λ s. s.now) handed) }
    ensures { IfOk result (IsVerdictWithin (grounds_under under.now (λ q. is_among answers.old q)) under.now.octets.now
        file.now (option_map (λ s. s.now) handed.entry) limit) }
{
    let room = limit.min(file.len() as u64);
    let verdict = verdict_in(alloc, under, file, handed, room, answers)?;
    if room < limit && is_too_long(&verdict) {
        return verdict_in(alloc, under, file, handed, limit, answers);
    }
    Ok(verdict)
}

/// Whether there was too little room, X3.
fn is_too_long(verdict: &Result<Accepted, UnderRefused>) -> bool
    ensures { MatchBool result (IsTooLong verdict.now) (IsTooLong verdict.now → ⊥) }
{
    matches!(
        verdict,
        Err(UnderRefused::Signed(Refused::Device(DeviceFault::TooLong)))
    )
}

/// The verdict with so much room.
fn verdict_in(
    alloc: Global,
    under: &UnderRecord<'_>,
    file: &[u8],
    handed: Option<&[u8]>,
    room: u64,
    answers: &mut Answers,
) -> Result<Result<Accepted, UnderRefused>, AllocError>
    requires wanted { (v : EvidenceValue) → EncodesEvidence under.now.octets.now v
        → HaveWanted v.chains under.now.digests.now }
    requires are { AreOfData under.now.digests.now (data_of file.now (option_map (λ s. s.now) handed)) }
    requires short { IsShort (option_map (λ s. s.now) handed) }
    ensures verdict { IfOk result (IsVerdictWithin (grounds_under under.now (λ q. is_among answers.old q))
        under.now.octets.now file.now (option_map (λ s. s.now) handed.entry) room) }
    ensures same { ◌≡◌ {A = Asked → Bool} (λ q. is_among answers.new q) (λ q. is_among answers.old q) }
{
    let mut buffer = vec![in alloc; 0; room as usize]?;
    let mut passing = Pass::new();
    let mut file = Slice::new(file);
    let mut content = source_of(handed);
    Ok(check_under(
        alloc,
        under,
        &mut passing,
        &mut file,
        &mut content,
        buffer.as_mut_slice(),
        answers,
    ))
}

/// The line of a verdict, if it accepts.
///
/// Errors: why it doesn't; memory is refused for the line.
fn told_under<'a>(
    alloc: Global,
    verdict: Result<Accepted, UnderRefused>,
) -> Result<Vec<u8>, Failure<'a>>
    ensures { MatchResult result (λ line. TellsUnder verdict line.items) (TellsNotUnder verdict) }
{
    match verdict {
        Ok(accepted) => line_of(alloc, Ok(accepted)),
        Err(UnderRefused::Evidence(refused)) => Err(Failure::Unevidenced(OfRecord { refused })),
        Err(UnderRefused::Signed(refused)) => Err(Failure::Refused(refused)),
    }
}

//! A signed file under an evidence record (RFC 4998 1.1, 5.3).
ghost use Rattle.std.specs.Prelude.{◌≡◌, ◌≢◌, ◌⊎◌, IfErr, IfOk, map, option_map};
ghost use Rattle.std.specs.List.{AllByRecursion};
ghost use Rattle.digests.specs.Selection.{AreOfWanted, set_given};
ghost use Rattle.trust_lists.specs.Asking.{is_among};
ghost use Rattle.check_fit.specs.declared.policy.Policy.{Policy};
ghost use Rattle.check_verdict.specs.Beside.{beside};
ghost use Rattle.check_verdict.specs.TokenVerdicts.{terms_of};
ghost use Rattle.judge_evidence.specs.Data.{AreOfData};
ghost use Rattle.check_under.specs.Under.{AllowsAt, data_of};
ghost use Rattle.check_under.specs.UnderVerdicts.{said_under};
ghost use Rattle.library_calls.specs.Checked.{IsKnownVerdict, handed};
ghost use Rattle.library_records.specs.Evidence.{IsEvidenceJudged};
ghost use Rattle.library_records.specs.Under.{IsUnderChecked, IsUnderJudged, RefusesStatedUnder, SaysUnder};
ghost use Rattle.library_records.specs.Under.{StatesUnder, grounds_by};

use crate::data_objects::digests_by;
use crate::ends::{at_of, ends_of};
use crate::evidence::tell_unstated;
use check_evidence::{EvidenceRefused, records_are_judged};
use check_fit::{DeviceFault, Refused};
use check_under::{UnderRefused, policy_at, under_is_judged};
use check_verdict::{Accepted, Checker};
use cli_failures::{Failure, OfRecord};
use der_time::Moment;
use digests::{Algs, WantedDigests};
use evidence_stamps::End;
use judge_evidence::{check_evidence, wanted_by};
use library_answers::{Answer, NO_MEMORY, Told, tell_failure, tell_verdict};
use library_calls::{Input, judge_input};
use list_answers::Answers;
use std::alloc::{AllocError, Global};
use std::marker::Model;
use trust_lists::Trust;

/// A signed file, the evidence record under which it is judged, and how long that must hold, as a caller states it.
///
/// Contracts see an `UnderCheck` (`specs/Under.antt`).
#[derive(Drop)]
pub struct UnderInput<'i> {
    /// The evidence record.
    pub evidence: &'i [u8],
    /// The signed file, and the content beside it, if it is given.
    pub signed: Input<'i>,
    /// The ends of digest algorithms: words as `sha1=20160101000000Z`, with one space between them. May be empty.
    pub ends: &'i [u8],
    /// The moment at which the last time-stamp must hold, as `20261231000000Z`. May be empty.
    pub at: &'i [u8],
}

impl<'i> Model for UnderInput<'i> {
    ghost use Rattle.library_calls.specs.Checked.{handed};
    ghost use Rattle.library_records.specs.Under.{UnderCheck};

    ghost Value = { UnderCheck };

    ghost view = { λ i. record {
      evidence = i.evidence.now;
      file = i.signed.file.now;
      content = handed i.signed.given i.signed.content.now;
      ends = i.ends.now;
      at = i.at.now;
    } };
}

/// The ends and the moment that a caller states.
fn stated(alloc: Global, input: &UnderInput) -> Result<(Vec<End>, Option<Moment>), Failure<'static>>
    ensures found { IfOk result (λ s. StatesUnder input.now s.0.items s.1) }
    ensures refused { IfErr result (λ f. (f ≡ Failure.Memory) ⊎ RefusesStatedUnder input.now f) }
{
    let ends = ends_of(alloc, input.ends)?;
    let at = at_of(input.at)?;
    Ok((ends, at))
}

/// The digests by these algorithms of a file, and then of the content, if it is given.
fn digests_of_both(
    alloc: Global,
    wanted: Algs,
    signed: Input,
) -> Result<Vec<WantedDigests>, AllocError>
    ensures of_wanted { IfOk result (λ v. AllByRecursion (λ d. set_given d ≡ wanted) v.items) }
    ensures of_data { IfOk result (λ v. AreOfData v.items
        (data_of signed.entry.file.now (handed signed.entry.given signed.entry.content.now))) }
{
    let mut digests = Vec::new(alloc);
    digests.push(digests_by(wanted, signed.file))?;
    if signed.given {
        digests.push(digests_by(wanted, signed.content))?;
    }
    Ok(digests)
}

/// What the record shows of the file, and of the content if it is given.
fn record_verdict(
    alloc: Global,
    list: &Trust,
    asked: &mut Answers,
    evidence: &[u8],
    signed: Input,
    ends: &[End],
    at: Option<Moment>,
) -> Result<Accepted, EvidenceRefused>
    ensures verdict { IsEvidenceJudged (grounds_by list.now asked.old ends.now at) evidence.now
        (data_of signed.entry.file.now (handed signed.entry.given signed.entry.content.now)) result }
    ensures same { is_among asked.new ≡ is_among asked.old }
{
    // No record both shows a moment and is refused.
    records_are_judged();
    let wanted = match wanted_by(evidence) {
        Ok(wanted) => wanted,
        Err(failed) => return Err(EvidenceRefused::Record(failed)),
    };
    let Ok(digests) = digests_of_both(alloc, wanted, signed) else {
        return Err(EvidenceRefused::Device(DeviceFault::OutOfMemory));
    };
    check_evidence(alloc, evidence, &digests, list, ends, at, false, asked)
}

/// The verdict about the file, by the moment that the record shows.
fn signed_verdict(
    list: &Trust,
    asked: &mut Answers,
    signed: Input,
    ends: &[End],
    shown: Moment,
) -> Result<Accepted, Refused>
    ensures verdict { (policy : Policy) × AllowsAt ends.now shown policy
        × IsKnownVerdict (terms_of policy (map (beside shown) list.now) (is_among asked.old)) signed.entry.file.now
        (handed signed.entry.given signed.entry.content.now) result }
    ensures same { is_among asked.new ≡ is_among asked.old }
{
    let mut checker = Checker::beside(list, policy_at(ends, shown), shown);
    judge_input(signed, &mut checker, asked)
}

/// What is said of the file, under a record that shows it.
fn said_under(said: Result<Accepted, Refused>) -> Result<Accepted, UnderRefused>
    ensures { result ≡ said_under said }
{
    match said {
        Ok(accepted) => Ok(accepted),
        Err(failed) => Err(UnderRefused::Signed(failed)),
    }
}

/// The verdict about the file under the record, with these ends and this moment.
fn under_verdict(
    alloc: Global,
    list: &Trust,
    asked: &mut Answers,
    input: &UnderInput,
    ends: &[End],
    at: Option<Moment>,
) -> Result<Accepted, UnderRefused>
    ensures verdict { IsUnderJudged (grounds_by list.now asked.old ends.now at) input.now.evidence input.now.file
        input.now.content result }
    ensures same { is_among asked.new ≡ is_among asked.old }
{
    // The file is accepted with one moment at most, and never also refused.
    under_is_judged();
    let shown = match record_verdict(alloc, list, asked, input.evidence, input.signed, ends, at) {
        Ok(shown) => shown.moment,
        Err(failed) => return Err(UnderRefused::Evidence(failed)),
    };
    said_under(signed_verdict(list, asked, input.signed, ends, shown))
}

/// A verdict about a file under a record, in numbers and as its line. No device fails but memory: all octets are there.
fn tell_under_verdict(
    alloc: Global,
    verdict: Result<Accepted, UnderRefused>,
    room: &mut [u8],
) -> Told
    ensures { SaysUnder verdict result.said result.status room.old result.size room.new }
{
    match verdict {
        Ok(accepted) => tell_verdict(alloc, &Ok(accepted), room),
        Err(UnderRefused::Signed(refused)) => tell_verdict(alloc, &Err(refused), room),
        Err(UnderRefused::Evidence(EvidenceRefused::Device(_))) => {
            Told::without_text(NO_MEMORY, Answer::nothing())
        }
        Err(UnderRefused::Evidence(refused)) => {
            tell_failure(alloc, &Failure::Unevidenced(OfRecord { refused }), room)
        }
    }
}

/// Says whether each signature of a file existed by a moment, under an evidence record and these lists.
pub fn tell_check_under(
    alloc: Global,
    list: &Trust,
    asked: &mut Answers,
    input: &UnderInput,
    room: &mut [u8],
) -> Told
    // The verdict of the definitions with what the caller states, in numbers and as its line; or which of the ends and
    // the moment, in this order, is the first that is not as it must be; or that memory was refused.
    ensures verdict { IsUnderChecked list.now asked.old input.now result.said result.status room.old result.size
        room.new }
    // The answers list vouches for what it vouched for.
    ensures same { is_among asked.new ≡ is_among asked.old }
{
    match stated(alloc, input) {
        Ok((ends, at)) => {
            let verdict = under_verdict(alloc, list, asked, input, &ends, at);
            tell_under_verdict(alloc, verdict, room)
        }
        Err(why) => tell_unstated(alloc, &why, room),
    }
}

//! An evidence record over the data objects that it should cover (RFC 4998 5.3).
ghost use Rattle.std.specs.Prelude.{◌≡◌, ◌≢◌, ◌⊎◌, List, IfErr, IfOk, length, sum};
ghost use Rattle.trust_lists.specs.Asking.{Asked, is_among};
ghost use Rattle.check_questions.specs.QuestionsText.{questions_text};
ghost use Rattle.evidence_questions.specs.RecordQuestions.{AreQuestionsOfRecord};
ghost use Rattle.library_calls.specs.Stamps.{SaysFailure};
ghost use Rattle.library_records.specs.Evidence.{IsEvidenceChecked, IsEvidenceJudged, IsEvidenceQuestioned};
ghost use Rattle.library_records.specs.Evidence.{IsRecordUnasked, SaysEvidence, SaysNoMemory, failure_of_questions};
ghost use Rattle.library_records.specs.Evidence.{grounds_under};
ghost use Rattle.library_records.specs.Stated.{RefusesStated, States, data_of};

use crate::data_objects::{digests_of, have_lengths};
use crate::ends::{at_of, ends_of};
use check_evidence::{EvidenceRefused, records_are_judged};
use check_fit::DeviceFault;
use check_verdict::Accepted;
use cli_failures::Failure;
use der_time::Moment;
use devices::FromWrite;
use evidence_questions::{RecordQuestionsFault, questions_of_record};
use evidence_stamps::End;
use judge_evidence::{check_evidence, wanted_by};
use library_answers::{
    Answer, NO_MEMORY, Told, failure_answer, failure_status, tell_failure, tell_made, tell_verdict,
};
use list_answers::Answers;
use std::alloc::Global;
use std::marker::Model;
use trust_lists::Trust;

/// An evidence record, what it should cover, and how long it must hold, as a caller states it.
///
/// Contracts see an `EvidenceCheck` (`specs/Stated.antt`).
#[derive(Drop)]
pub struct EvidenceInput<'i> {
    /// The evidence record.
    pub evidence: &'i [u8],
    /// The data objects, one after the other.
    pub joined: &'i [u8],
    /// How many octets each data object has.
    pub lengths: &'i [u64],
    /// The ends of digest algorithms: words as `sha1=20160101000000Z`, with one space between them. May be empty.
    pub ends: &'i [u8],
    /// The moment at which the last time-stamp must hold, as `20261231000000Z`. May be empty.
    pub at: &'i [u8],
    /// Whether the first list may have no hash values but those of the data objects.
    pub whole: bool,
}

impl<'i> Model for EvidenceInput<'i> {
    ghost use Rattle.library_records.specs.Stated.{EvidenceCheck};

    ghost Value = { EvidenceCheck };

    ghost view = { λ i. record {
      evidence = i.evidence.now;
      joined = i.joined.now;
      lengths = i.lengths.now;
      ends = i.ends.now;
      at = i.at.now;
      whole = i.whole;
    } };
}

/// The ends and the moment that a caller states, and that the lengths are right.
fn stated(
    alloc: Global,
    input: &EvidenceInput,
) -> Result<(Vec<End>, Option<Moment>), Failure<'static>>
    ensures found { IfOk result (λ s. States input.now s.0.items s.1) }
    ensures refused { IfErr result (λ f. (f ≡ Failure.Memory) ⊎ RefusesStated input.now f) }
{
    let ends = ends_of(alloc, input.ends)?;
    let at = at_of(input.at)?;
    if have_lengths(input.joined, input.lengths) {
        Ok((ends, at))
    } else {
        Err(Failure::Usage("lengths"))
    }
}

/// The verdict about an evidence record under these lists, with these ends and this moment.
fn evidence_verdict(
    alloc: Global,
    list: &Trust,
    asked: &mut Answers,
    input: &EvidenceInput,
    ends: &[End],
    at: Option<Moment>,
) -> Result<Accepted, EvidenceRefused>
    requires { sum input.now.lengths ≡ length input.now.joined }
    ensures verdict { IsEvidenceJudged (grounds_under list.now asked.old input.now ends.now at) input.now.evidence
        (data_of input.now) result }
    ensures same { is_among asked.new ≡ is_among asked.old }
{
    // No record both shows a moment and is refused.
    records_are_judged();
    let wanted = match wanted_by(input.evidence) {
        Ok(wanted) => wanted,
        Err(failed) => return Err(EvidenceRefused::Record(failed)),
    };
    let Ok(digests) = digests_of(alloc, wanted, input.joined, input.lengths) else {
        return Err(EvidenceRefused::Device(DeviceFault::OutOfMemory));
    };
    let (evidence, whole) = (input.evidence, input.whole);
    check_evidence(alloc, evidence, &digests, list, ends, at, whole, asked)
}

/// A verdict about an evidence record, in numbers and as its line. No device fails but memory: the lists are there.
fn tell_evidence_verdict(
    alloc: Global,
    verdict: Result<Accepted, EvidenceRefused>,
    room: &mut [u8],
) -> Told
    ensures { SaysEvidence verdict result.said result.status room.old result.size room.new }
{
    match verdict {
        Ok(accepted) => tell_verdict(alloc, &Ok(accepted), room),
        Err(EvidenceRefused::Device(_)) => Told::without_text(NO_MEMORY, Answer::nothing()),
        Err(refused) => tell_failure(alloc, &Failure::Unshown(refused), room),
    }
}

/// Why what a caller states is not as it must be, in numbers and as its line; or that memory was refused, without one.
pub(crate) fn tell_unstated(alloc: Global, why: &Failure, room: &mut [u8]) -> Told
    ensures memory { why.now ≡ Failure.Memory
        → SaysNoMemory result.said result.status room.old result.size room.new }
    ensures other { why.now ≢ Failure.Memory
        → SaysFailure why.now result.said result.status room.old result.size room.new }
{
    match why {
        Failure::Memory => Told::without_text(NO_MEMORY, Answer::nothing()),
        other => tell_failure(alloc, other, room),
    }
}

/// Says whether an evidence record shows that data objects existed, and by which moment, under these lists.
pub fn tell_evidence_check(
    alloc: Global,
    list: &Trust,
    asked: &mut Answers,
    input: &EvidenceInput,
    room: &mut [u8],
) -> Told
    // The verdict of the definitions with what the caller states, in numbers and as its line; or which of the ends, the
    // moment and the lengths, in this order, is the first that is not as it must be; or that memory was refused.
    ensures verdict { IsEvidenceChecked list.now asked.old input.now result.said result.status room.old result.size
        room.new }
    // The answers list vouches for what it vouched for.
    ensures same { is_among asked.new ≡ is_among asked.old }
{
    match stated(alloc, input) {
        Ok((ends, at)) => {
            let verdict = evidence_verdict(alloc, list, asked, input, &ends, at);
            tell_evidence_verdict(alloc, verdict, room)
        }
        Err(why) => tell_unstated(alloc, &why, room),
    }
}

/// The text of the questions of an evidence record. Writing to a vector fails only if memory is refused.
fn record_text(
    alloc: Global,
    list: &Trust,
    evidence: &[u8],
) -> Result<Vec<u8>, RecordQuestionsFault>
    ensures asked { IfOk result (λ v. (qs : List Asked) × AreQuestionsOfRecord list.now evidence.now qs
        × (v.items ≡ questions_text qs)) }
    ensures refused { IfErr result (IsRecordUnasked evidence.now) }
{
    let mut sink = FromWrite::new(Vec::new(alloc));
    match questions_of_record(evidence, list, &mut sink) {
        Ok(()) => Ok(sink.into_inner()),
        Err(fault) => Err(fault),
    }
}

/// Why an evidence record has no questions, as a failure.
fn failure_of(fault: RecordQuestionsFault) -> Failure<'static>
    ensures { result ≡ failure_of_questions fault }
{
    match fault {
        RecordQuestionsFault::Record(failed) => Failure::Unshown(EvidenceRefused::Record(failed)),
        RecordQuestionsFault::WriteFailed => Failure::Memory,
    }
}

/// Puts the questions of an evidence record into their room, or says in numbers why there are none.
pub fn tell_evidence_questions(
    alloc: Global,
    list: &Trust,
    evidence: &[u8],
    room: &mut [u8],
) -> Told
    // The text of its questions, or its size if there is too little room; or why there are none.
    ensures { IsEvidenceQuestioned list.now evidence.now result.said result.status room.old result.size room.new }
{
    match record_text(alloc, list, evidence) {
        Ok(found) => tell_made(&found, room),
        Err(fault) => {
            let why = failure_of(fault);
            Told::without_text(failure_status(&why), failure_answer(&why))
        }
    }
}

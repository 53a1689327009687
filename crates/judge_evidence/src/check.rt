//! The check of an evidence record (RFC 4998 5.3).
ghost use Rattle.std.specs.Prelude.{◌≡◌, ℕ, List, Err};
ghost use Rattle.check_fit.specs.declared.rules.DeviceFault.{DeviceFault};
ghost use Rattle.evidence_types.specs.EvidenceValue.{EvidenceValue, EncodesEvidence};
ghost use Rattle.check_verdict.specs.Asks.{AsksOnly};
ghost use Rattle.check_evidence.specs.Showing.{Shows};
ghost use Rattle.judge_evidence.specs.Asking.{IsAskedOfRecord};
ghost use Rattle.judge_evidence.specs.Data.{AreOfData, HaveWanted};
ghost use Rattle.judge_evidence.specs.Given.{grounds_by};
ghost use Rattle.judge_evidence.specs.Ordering.{IsRecordOutOfOrder};
ghost use Rattle.judge_evidence.specs.Terms.{grounds_of};
ghost use Rattle.judge_evidence.specs.Walking.{CountsRefused};
ghost use Rattle.judge_evidence.specs.RecordVerdicts.{IsOpened, IsOpenWithData, IsVerdict, IsDevice, ShowsOrDevice};

use crate::terms::Terms;
use crate::walk::judge_chains;
use check_evidence::{EvidenceRefused, RecordRule, records_are_judged};
use check_verdict::Accepted;
use der_core::ReadFault;
use der_time::Moment;
use digests::WantedDigests;
use evidence_stamps::End;
use evidence_types::EvidenceRecord;
use list_answers::Verifier;
use std::alloc::Global;
use trust_lists::Trust;

// The record, whose data are open.
pub(crate) fn opened<'a>(octets: &'a [u8]) -> Result<EvidenceRecord<'a>, RecordRule>
    ensures { IsOpened octets.now result }
{
    let evidence = match EvidenceRecord::read(octets) {
        Ok(evidence) => evidence,
        Err(ReadFault::Malformed(fault)) => return Err(RecordRule::Malformed(fault)),
        Err(ReadFault::OutOfMemory) => unreachable!(),
    };
    match evidence.encryption() {
        Some(_) => Err(RecordRule::Encrypted),
        None => Ok(evidence),
    }
}

// The moment that a record shows for data objects with these digests.
fn judge_record<V: Verifier>(
    alloc: Global,
    octets: &[u8],
    digests: &[WantedDigests],
    terms: &Terms,
    verifier: &mut V,
) -> Result<Moment, EvidenceRefused>
    requires { (v : EvidenceValue) → EncodesEvidence octets.now v → HaveWanted v.chains digests.now }
    ensures judged { let g = grounds_of terms.now (V.vouches verifier.old) in (data_objects : List (List ℕ))
        → AreOfData digests.now data_objects → IsVerdict g octets.now data_objects result }
    ensures only { let g = grounds_of terms.now (V.vouches verifier.old) in (data_objects : List (List ℕ))
        → AreOfData digests.now data_objects
        → AsksOnly (λ test. V.asked_only test verifier.old verifier.new) (IsAskedOfRecord g octets.now data_objects) }
    ensures same { V.vouches verifier.new ≡ V.vouches verifier.old }
    ensures count { CountsRefused result (V.failures verifier.old) (V.failures verifier.new) }
    ensures device { IsDevice result → IsOpenWithData octets.now digests.now }
    ensures memory { result ≡ Err (EvidenceRefused.Device DeviceFault.OutOfMemory) → IsRecordOutOfOrder octets.now }
{
    let evidence = match opened(octets) {
        Ok(evidence) => evidence,
        Err(failed) => return Err(EvidenceRefused::Record(failed)),
    };
    if digests.is_empty() {
        return Err(EvidenceRefused::Record(RecordRule::NoData));
    }
    judge_chains(alloc, evidence.chains(), digests, terms, verifier)
}

/// Whether an evidence record shows that data objects existed, and by which moment: the genTime of its first archive
/// time-stamp (RFC 4998 5.3). The data objects are a group: the record must cover each. Of each there are digests by at
/// least the algorithms of `wanted_by`. An algorithm holds until each end that is given for it, SHA-1 only if one is.
/// The last time-stamp must hold at the moment `at`, or, if there is none, at its own. If `whole`, the first list may
/// have no hash values but those of the data.
///
/// Errors: V1 to V3 of the record; of the first archive time-stamp that doesn't fit the first of W1 to W5 that it
/// fails; if all fit, of the first that doesn't last the first of W6 and W7; W8. X2 if the verifier fails; X4 if memory
/// is refused to sort a list that is out of order.
pub fn check_evidence<V: Verifier>(
    alloc: Global,
    octets: &[u8],
    digests: &[WantedDigests],
    trust: &Trust,
    ends: &[End],
    at: Option<Moment>,
    whole: bool,
    verifier: &mut V,
) -> Result<Accepted, EvidenceRefused>
    // Of each data object there are the digests that the record wants.
    requires { (v : EvidenceValue) → EncodesEvidence octets.now v → HaveWanted v.chains digests.now }
    // It shows the moment, or is refused for this reason; or a device failed.
    ensures judged { let g = grounds_by trust.now (V.vouches verifier.old) ends.now at whole in
        (data_objects : List (List ℕ)) → AreOfData digests.now data_objects
        → IsVerdict g octets.now data_objects result }
    // If it shows a moment, that is the verdict, unless a device failed.
    ensures complete { let g = grounds_by trust.now (V.vouches verifier.old) ends.now at whole in
        (data_objects : List (List ℕ)) → AreOfData digests.now data_objects
        → (m : ℕ) → Shows g octets.now data_objects m → ShowsOrDevice m result }
    // The verifier is asked only about the tokens of its time-stamps: whether one passes that covers what it must, if
    // those before it fit, and whether one lasts that fits, if those before it stand; each under entries of which all
    // else holds.
    ensures only { let g = grounds_by trust.now (V.vouches verifier.old) ends.now at whole in
        (data_objects : List (List ℕ)) → AreOfData digests.now data_objects
        → AsksOnly (λ test. V.asked_only test verifier.old verifier.new) (IsAskedOfRecord g octets.now data_objects) }
    // What the verifier vouches for stays the same.
    ensures same { V.vouches verifier.new ≡ V.vouches verifier.old }
    // It failed exactly if the verdict says so.
    ensures count { CountsRefused result (V.failures verifier.old) (V.failures verifier.new) }
    // The verdict is X2 or X4 only if V1 to V3 hold.
    ensures device { IsDevice result → IsOpenWithData octets.now digests.now }
    // It is X4 only if a list of the record is out of order.
    ensures memory { result ≡ Err (EvidenceRefused.Device DeviceFault.OutOfMemory) → IsRecordOutOfOrder octets.now }
{
    // No record both shows a moment and is refused.
    records_are_judged();
    let terms = Terms {
        trust,
        ends,
        at,
        whole,
    };
    match judge_record(alloc, octets, digests, &terms, verifier) {
        Ok(moment) => Ok(Accepted { moment }),
        Err(refused) => Err(refused),
    }
}

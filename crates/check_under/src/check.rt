//! The check of a signed file under an evidence record.
ghost use Rattle.std.specs.Prelude.{◌≡◌, ◌⊎◌, ℕ, List, [], map, None, Err, IfSome, option_map};
ghost use Rattle.check_fit.specs.declared.policy.Policy.{Policy};
ghost use Rattle.check_fit.specs.declared.rules.DeviceFault.{DeviceFault};
ghost use Rattle.evidence_types.specs.EvidenceValue.{EvidenceValue, EncodesEvidence};
ghost use Rattle.check_verdict.specs.Asks.{AsksOnly};
ghost use Rattle.check_verdict.specs.Beside.{beside};
ghost use Rattle.check_verdict.specs.Checking.{CountsAsks};
ghost use Rattle.check_stream.specs.DeviceVerdicts.{OfDevices};
ghost use Rattle.check_stream.specs.Promises.{Promised};
ghost use Rattle.check_stream.specs.StreamVerdicts.{IsEarly, facts, given, judge};
ghost use Rattle.check_evidence.specs.declared.rules.EvidenceRefused.{EvidenceRefused};
ghost use Rattle.judge_evidence.specs.Data.{AreOfData, HaveWanted};
ghost use Rattle.judge_evidence.specs.Ordering.{IsRecordOutOfOrder};
ghost use Rattle.judge_evidence.specs.RecordVerdicts.{IsOpenWithData};
ghost use Rattle.check_under.specs.Under.{data_of, AllowsAt};
ghost use Rattle.check_under.specs.Given.{grounds_under};
ghost use Rattle.check_under.specs.UnderVerdicts.{said_under, said_of_file, GivesYesUnder, IsVerdictUnder};
ghost use Rattle.check_under.specs.UnderVerdicts.{JudgesUnder, IsAskedUnder, CountsUnder};

use crate::given::UnderRecord;
use crate::policy::policy_at;
use crate::refused::UnderRefused;
use check_evidence::records_are_judged;
use check_fit::Refused;
use check_stream::check_stream_with;
use check_verdict::{Accepted, Checker};
use cms_stream::Pass;
use der_time::Moment;
use devices::Source;
use judge_evidence::check_evidence;
use list_answers::Verifier;
use std::alloc::Global;

// What is said of the file, under a record that shows it.
fn said_under(said: Result<Accepted, Refused>) -> Result<Accepted, UnderRefused>
    ensures { result ≡ said_under said }
{
    match said {
        Ok(accepted) => Ok(accepted),
        Err(failed) => Err(UnderRefused::Signed(failed)),
    }
}

// The verdict about the file, by the moment that the record shows.
fn check_shown<F: Source, S: Source, V: Verifier>(
    under: &UnderRecord,
    shown: Moment,
    passing: &mut Pass,
    file: &mut F,
    content: &mut Option<S>,
    buffer: &mut [u8],
    verifier: &mut V,
) -> Result<Accepted, Refused>
    ensures promised { (policy : Policy) × AllowsAt under.now.ends.now shown policy × Promised
        (judge V.Verifier policy (map (beside shown) under.now.trust.now) verifier.old verifier.new)
        (given F.Source file.old file.new buffer.old) S.Source content.old content.new result }
    ensures end { F.tells file.old → IsEarly result ⊎ (F.rest file.new ≡ []) }
    ensures same { V.vouches verifier.new ≡ V.vouches verifier.old }
    ensures count { CountsAsks result (V.failures verifier.old) (V.failures verifier.new) }
{
    let mut checker = Checker::beside(under.trust, policy_at(under.ends, shown), shown);
    check_stream_with(passing, &mut checker, file, content, buffer, verifier)
}

/// Whether a signed file is accepted under an evidence record, and with which moment (RFC 4998 5.3). If the record
/// shows the file, and the content where one is handed in, by some moment k, the file gets the verdict of
/// `check_stream`, with the algorithms that hold at k; and a token of it counts only if it isn't later than k, and its
/// authority's entry holds at k too. So a file's own time-stamps count though their authority or an algorithm ended
/// since. Of the file and the content there are digests by at least the algorithms of `wanted_by`.
///
/// Errors: `Evidence` with the refusal of the record, and then the file isn't read; else `Signed` with that of the
/// file.
pub fn check_under<F: Source, S: Source, V: Verifier>(
    alloc: Global,
    under: &UnderRecord,
    passing: &mut Pass,
    file: &mut F,
    content: &mut Option<S>,
    buffer: &mut [u8],
    verifier: &mut V,
) -> Result<Accepted, UnderRefused>
    // Of each data object there are the digests that the record wants.
    requires { (v : EvidenceValue) → EncodesEvidence under.now.octets.now v
        → HaveWanted v.chains under.now.digests.now }
    // For a file and a content that are known, whose digests these are: yes with a moment exactly if the definition
    // says so, unless a device failed, the content is too long or there is too little room.
    ensures headline { F.tells file.old → IfSome content.old S.tells
        → AreOfData under.now.digests.now (data_of (F.rest file.old) (option_map S.rest content.old))
        → (m : ℕ) → GivesYesUnder (grounds_under under.now (V.vouches verifier.old)) under.now.octets.now
        (F.rest file.old) (option_map S.rest content.old) result m }
    // And if it isn't yes, the refusal of the definition: the record's, or the file's if the record shows it.
    ensures verdict { F.tells file.old → IfSome content.old S.tells
        → AreOfData under.now.digests.now (data_of (F.rest file.old) (option_map S.rest content.old))
        → IsVerdictUnder (grounds_under under.now (V.vouches verifier.old)) under.now.octets.now
        (F.rest file.old) (option_map S.rest content.old) result }
    // Of each file, also one that isn't known: the record's refusal for the data objects with these digests; or it
    // shows them, and the verdict is that of a check of a stream by the terms under it.
    ensures judged { (data_objects : List (List ℕ)) → AreOfData under.now.digests.now data_objects
        → JudgesUnder (grounds_under under.now (V.vouches verifier.old)) under.now.octets.now data_objects
        (given F.Source file.old file.new buffer.old) S.Source content.old content.new result }
    // The verifier is asked only what a check of the record asks, and questions of the file.
    ensures only { F.tells file.old → (data_objects : List (List ℕ)) → AreOfData under.now.digests.now data_objects
        → AsksOnly (λ test. V.asked_only test verifier.old verifier.new)
        (IsAskedUnder (grounds_under under.now (V.vouches verifier.old)) under.now.octets.now data_objects
        (F.rest file.old)) }
    // The verdict about the record is X2 or X4 only if V1 to V3 hold.
    ensures device { (fault : DeviceFault) → result ≡ Err (UnderRefused.Evidence (EvidenceRefused.Device fault))
        → IsOpenWithData under.now.octets.now under.now.digests.now }
    // It is X4 only if a list of the record is out of order.
    ensures memory { result ≡ Err (UnderRefused.Evidence (EvidenceRefused.Device DeviceFault.OutOfMemory))
        → IsRecordOutOfOrder under.now.octets.now }
    // If the record is refused, neither the file nor the content is read.
    ensures unread { said_of_file result ≡ None → (file.new ≡ file.old) × (content.new ≡ content.old) }
    // Otherwise: which device failed, and which refusals there are.
    ensures devices { IfSome (said_of_file result) (OfDevices (facts S.Source) (F.failures file.old)
        (F.failures file.new) content.old content.new) }
    // And then the file is read to its end, unless the verdict is C1, X1 or X3.
    ensures end { F.tells file.old
        → IfSome (said_of_file result) (λ said. IsEarly said ⊎ (F.rest file.new ≡ [])) }
    // What the verifier vouches for stays the same.
    ensures same { V.vouches verifier.new ≡ V.vouches verifier.old }
    // It failed exactly if the verdict says so.
    ensures count { CountsUnder result (V.failures verifier.old) (V.failures verifier.new) }
{
    // A record shows one moment.
    records_are_judged();
    let shown = match check_evidence(
        alloc,
        under.octets,
        under.digests,
        under.trust,
        under.ends,
        under.at,
        under.whole,
        verifier,
    ) {
        Ok(shown) => shown.moment,
        Err(failed) => return Err(UnderRefused::Evidence(failed)),
    };
    said_under(check_shown(under, shown, passing, file, content, buffer, verifier))
}

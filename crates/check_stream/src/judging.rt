ghost use Rattle.std.specs.Prelude.{◌≡◌, ℕ, List, Option, None, Ok, IfSome, IfOk};
ghost use Rattle.digests.specs.Selection.{FedWanted, set_of};
ghost use Rattle.check_verdict.specs.Checkers.{terms_for};
ghost use Rattle.cms_stream.specs.Opening.{OpenedValue, OpensStream};
ghost use Rattle.check_stream.specs.StreamVerdicts.{ChecksStreamAsking, facts};
ghost use Rattle.check_stream.specs.KeptRules.{kept_rules};
ghost use Rattle.check_stream.specs.JudgedKept.{stopped_by, IsLeft, OfPass, Stopped, AsksVerifier};
ghost use Rattle.check_stream.specs.DeviceVerdicts.{OfRead};

use crate::content::hash_wanted;
use check_fit::{DeviceFault, FileRule, Refused};
use check_verdict::{Accepted, Checker, judge_signers};
use cms_stream::{Opened, StreamFault};
use devices::Source;
use digests::Wanted;
use list_answers::Verifier;

// C1, X1 or X3, if a pass ended before the file's end.
fn stopped_by(fault: StreamFault) -> Refused
    ensures { result ≡ stopped_by fault }
{
    match fault {
        StreamFault::Malformed(fault) => Refused::File(FileRule::Malformed(fault)),
        StreamFault::ReadFailed => Refused::Device(DeviceFault::ReadFailed),
        StreamFault::TooLong => Refused::Device(DeviceFault::TooLong),
    }
}

// What was kept of a SignedData, if its content was in the file or is handed in, and not both.
//
// Errors: the first of C2 to C5 that fails.
fn kept<'b>(opened: Option<Opened<'b>>, handed: bool) -> Result<Opened<'b>, Refused>
    ensures { result ≡ kept_rules opened.entry handed }
{
    let Some(opened) = opened else {
        return Err(Refused::File(FileRule::NotSignedData));
    };
    if opened.signers().is_empty() {
        return Err(Refused::File(FileRule::NoSigner));
    }
    match (opened.is_attached(), handed) {
        (false, false) => Err(Refused::File(FileRule::NoContent)),
        (true, true) => Err(Refused::File(FileRule::ContentTwice)),
        _ => Ok(opened),
    }
}

// The verdict, by what a pass kept of the octets and the hashers that it fed. `None` if a signer needs an algorithm
// that the hashers don't have.
fn judge_kept<S: Source, V: Verifier>(
    opened: Option<Opened>,
    hashers: Wanted,
    content: &mut Option<S>,
    checker: &mut Checker,
    verifier: &mut V,
) -> Option<Result<Accepted, Refused>>
    ensures asked { (octets : List ℕ) (room : ℕ) → OpensStream (FedWanted hashers) room octets (Ok opened.entry)
        → IfSome result (ChecksStreamAsking (facts S.Source) (terms_for checker.old (V.vouches verifier.old))
        (λ test. V.asked_only test verifier.old verifier.new) octets content.old content.new) }
    ensures devices { IfSome result (OfRead (facts S.Source) content.old content.new) }
    ensures left { result ≡ None → IsLeft checker.old.policy opened.entry (set_of hashers) content.old content.new
        × (verifier.new ≡ verifier.old) }
    ensures asks { AsksVerifier V.Verifier verifier.old verifier.new result }
    ensures stays { checker.new ≡ checker.old }
{
    let opened = match kept(opened, content.is_some()) {
        Ok(opened) => opened,
        Err(refused) => return Some(Err(refused)),
    };
    let digests = match hash_wanted(checker.policy(), opened.signers(), hashers, content)? {
        Ok(digests) => digests,
        Err(refused) => return Some(Err(refused)),
    };
    match judge_signers(
        &digests,
        opened.content_type(),
        opened.signers(),
        checker,
        verifier,
    ) {
        Ok(moment) => Some(Ok(Accepted { moment })),
        Err(refused) => Some(Err(refused)),
    }
}

/// The verdict, by what a pass over a file gave and the hashers that it fed. `None` if a signer needs an algorithm
/// that the hashers don't have.
///
/// Errors: X1 and X3 as the pass reports them; otherwise as `check` of `check_verdict`.
pub(crate) fn judge_pass<S: Source, V: Verifier>(
    pass: Result<Option<Opened>, StreamFault>,
    hashers: Wanted,
    content: &mut Option<S>,
    checker: &mut Checker,
    verifier: &mut V,
) -> Option<Result<Accepted, Refused>>
    ensures asked { (octets : List ℕ) (room : ℕ) → OpensStream (FedWanted hashers) room octets pass.entry
        → OfPass (ChecksStreamAsking (facts S.Source) (terms_for checker.old (V.vouches verifier.old))
        (λ test. V.asked_only test verifier.old verifier.new) octets content.old content.new)
        pass.entry content.old content.new result }
    ensures stopped { Stopped pass.entry content.old content.new result }
    ensures devices { IfOk pass.entry (λ opened. IfSome result (OfRead (facts S.Source) content.old content.new)) }
    ensures left { result ≡ None → (opened : Option OpenedValue) × (pass.entry ≡ Ok opened)
        × IsLeft checker.old.policy opened (set_of hashers) content.old content.new × (verifier.new ≡ verifier.old) }
    ensures asks { AsksVerifier V.Verifier verifier.old verifier.new result }
    ensures stays { checker.new ≡ checker.old }
{
    match pass {
        Ok(opened) => judge_kept(opened, hashers, content, checker, verifier),
        Err(fault) => Some(Err(stopped_by(fault))),
    }
}

//! How far the trusted entries come through the rules S7 to S9.
ghost use Rattle.std.specs.Prelude.{◌≡◌, Bool, true, List, Contains, Some, IfOk, IfSome, IsTrue, ◌↔◌};
ghost use Rattle.std.specs.List.{slice_get};
ghost use Rattle.devices.specs.Device.{Counts};
ghost use Rattle.cms_types.specs.AttributeValue.{AttributeValue};
ghost use Rattle.check_verdict.specs.Filters.{Comes, Best};
ghost use Rattle.check_verdict.specs.Stages.{before_signer, passed_for_signer};
ghost use Rattle.check_verdict.specs.Passing.{Terms};
ghost use Rattle.check_verdict.specs.Trusted.{Holds, asked};
ghost use Rattle.trust_lists.specs.Asking.{Asked};
ghost use Rattle.trust_lists.specs.Entries.{EntryValue};
ghost use Rattle.check_names.specs.Naming.{NamesIfAny};
ghost use Rattle.check_verdict.specs.SignerStages.{LeftAt, IsSignersAt, ComesForSigner, AsksForSigner};

use crate::asking::question_of;
use crate::checker::Checker;
use crate::filter::{SignerFilter, further_for_signer};
use crate::hashed::Hashed;
use crate::trusted::Counted;
use cert_types::Certificate;
use check_names::{matches, names_if_any};
use cms_types::Signer;
use der_time::Moment;
use list_answers::{AskFault, Verifier};
use trust_lists::Role;

// Whether the entry with this certificate holds at the moment, if one is given.
fn holds_at(entry: &Counted, certificate: &Certificate, moment: &Option<Moment>) -> bool
    requires { certificate.now ≡ entry.now.certificate }
    ensures { IsTrue result ↔ IfSome moment.now (Holds entry.now) }
{
    match moment {
        Some(moment) => entry.holds_under(certificate, *moment),
        None => true,
    }
}

// Where the entry of a signer with this certificate stops, unless the verifier vouches for the signer.
fn failed_unasked(
    signer: &Signer,
    moment: &Option<Moment>,
    entry: &Counted,
    place: usize,
    certificate: &Certificate,
    hashed: &mut Hashed,
) -> SignerFilter
    requires place { slice_get hashed.old place ≡ Some entry.now }
    requires certificate { certificate.now ≡ entry.now.certificate }
    ensures stage { (t : Terms) → certificate.now ≡ entry.now.certificate → (attributes : List AttributeValue)
        → signer.now.signed_attributes ≡ Some attributes
        → Comes (LeftAt t signer.now attributes moment.now) 2 entry.now (before_signer result) }
    ensures listed { hashed.new ≡ hashed.old }
{
    if entry.role() != Role::Signer {
        return SignerFilter::UnknownSigner;
    }
    if !matches(signer.sid(), certificate) || !holds_at(entry, certificate, moment) {
        return SignerFilter::UnknownSigner;
    }
    match signer.attributes() {
        Some(attributes) if names_if_any(attributes, certificate, place, hashed) =>
            SignerFilter::SignatureFails,
        _ => SignerFilter::NotNamed,
    }
}

// Where the entry of a signer with this certificate stops, at a moment if one is given; `None` if it passes S7 to S9.
fn stage_under<V: Verifier>(
    signer: &Signer,
    moment: &Option<Moment>,
    entry: &Counted,
    place: usize,
    certificate: &Certificate,
    verifier: &mut V,
    hashed: &mut Hashed,
) -> Result<Option<SignerFilter>, AskFault>
    requires place { slice_get hashed.old place ≡ Some entry.now }
    requires certificate { certificate.now ≡ entry.now.certificate }
    ensures stage { ComesForSigner (V.vouches verifier.old) signer.now moment.now entry.now result }
    ensures only { AsksForSigner (λ test. V.asked_only test verifier.old verifier.new) signer.now moment.now entry.now }
    ensures same { V.vouches verifier.new ≡ V.vouches verifier.old }
    ensures count { Counts result (V.failures verifier.old) (V.failures verifier.new) }
    ensures listed { hashed.new ≡ hashed.old }
{
    let failed = failed_unasked(signer, moment, entry, place, certificate, hashed);
    if failed != SignerFilter::SignatureFails {
        return Ok(Some(failed));
    }
    let Some(question) = question_of(certificate, signer) else {
        return Ok(Some(SignerFilter::SignatureFails));
    };
    if verifier.ask(&question)? {
        Ok(None)
    } else {
        Ok(Some(SignerFilter::SignatureFails))
    }
}

// Where the entry at this place stops, at a moment if one is given; `None` if it passes S7 to S9. Its certificate is
// kept if it passes S7, so if it matches and the entry holds at the moment, since other signers may have it.
fn signer_stage<'l, V: Verifier>(
    signer: &Signer,
    moment: &Option<Moment>,
    entry: &Counted<'l>,
    place: usize,
    checker: &mut Checker<'l>,
    verifier: &mut V,
) -> Result<Option<SignerFilter>, AskFault>
    requires place { slice_get checker.old.trust place ≡ Some entry.now }
    ensures stage { ComesForSigner (V.vouches verifier.old) signer.now moment.now entry.now result }
    ensures only { AsksForSigner (λ test. V.asked_only test verifier.old verifier.new) signer.now moment.now entry.now }
    ensures same { V.vouches verifier.new ≡ V.vouches verifier.old }
    ensures count { Counts result (V.failures verifier.old) (V.failures verifier.new) }
    ensures stays { checker.new ≡ checker.old }
{
    if let Some(certificate) = checker.signers.find(place) {
        return stage_under(
            signer,
            moment,
            entry,
            place,
            certificate,
            verifier,
            &mut checker.hashed,
        );
    }
    let certificate = entry.certificate();
    let failed = stage_under(
        signer,
        moment,
        entry,
        place,
        &certificate,
        verifier,
        &mut checker.hashed,
    )?;
    if failed != Some(SignerFilter::UnknownSigner) {
        checker.signers.keep(place, certificate);
    }
    Ok(failed)
}

/// Where the entry stops that comes furthest, at a moment if one is given; `None` if it passes S7 to S9. Those that
/// stop at S7 by their role or their marks are passed over.
pub(crate) fn signer_stages<V: Verifier>(
    signer: &Signer,
    moment: &Option<Moment>,
    checker: &mut Checker,
    verifier: &mut V,
) -> Result<Option<SignerFilter>, AskFault>
    ensures stage { (t : Terms) → t.vouches ≡ V.vouches verifier.old → (attributes : List AttributeValue)
        → signer.now.signed_attributes ≡ Some attributes
        → IfOk result (λ failed. Best (LeftAt t signer.now attributes moment.now) 3 checker.old.trust
        (passed_for_signer failed)) }
    ensures only { (test : Asked → Bool) → (attributes : List AttributeValue)
        → signer.now.signed_attributes ≡ Some attributes
        → ((e : EntryValue) → Contains checker.old.trust e → IsSignersAt signer.now moment.now e
        → NamesIfAny attributes e.certificate → test (asked e.certificate signer.now attributes) ≡ true)
        → V.asked_only test verifier.old verifier.new }
    ensures same { V.vouches verifier.new ≡ V.vouches verifier.old }
    ensures count { Counts result (V.failures verifier.old) (V.failures verifier.new) }
    ensures stays { checker.new ≡ checker.old }
{
    let trust = checker.trust();
    let mut best = Some(SignerFilter::UnknownSigner);
    let mut from = 0;
    while let Some(at) = trust.next(Role::Signer, signer.sid(), from) {
        let entry = trust.entry(at);
        let failed = signer_stage(signer, moment, &entry, at, checker, verifier)?;
        best = further_for_signer(best, failed);
        from = at + 1;
    }
    Ok(best)
}

//! How far the trusted entries come through the rules K10 to K14.
ghost use Rattle.std.specs.Prelude.{◌≡◌, ◌≤◌, ◌↔◌, Bool, true, Contains, Some, IfOk, IsTrue};
ghost use Rattle.cert_types.specs.Purposes.{IsStampingOnly};
ghost use Rattle.std.specs.List.{slice_get};
ghost use Rattle.devices.specs.Device.{Counts};
ghost use Rattle.check_verdict.specs.Filters.{Comes, Best};
ghost use Rattle.check_verdict.specs.Stages.{before_token, passed_for_token};
ghost use Rattle.check_verdict.specs.Passing.{Terms};
ghost use Rattle.trust_lists.specs.Asking.{Asked};
ghost use Rattle.trust_lists.specs.Entries.{EntryValue};
ghost use Rattle.check_verdict.specs.Trusted.{asked};
ghost use Rattle.check_verdict.specs.TokenRules.{LeftForToken, IsInPeriod};
ghost use Rattle.check_verdict.specs.TokenStages.{ComesForToken, AsksForToken};

use crate::asking::question_of;
use crate::checker::Checker;
use crate::claim::Claim;
use crate::filter::{TokenFilter, further_for_token};
use crate::hashed::Hashed;
use crate::trusted::Counted;
use cert_types::Certificate;
use check_names::{matches, must_name};
use list_answers::{AskFault, Verifier};
use trust_lists::Role;

// Whether the certificate is for time-stamping alone, which may be known.
fn is_stamping_only(certificate: &Certificate, known: bool) -> bool
    requires { IsTrue known → IsStampingOnly certificate.now }
    ensures { IsTrue result ↔ IsStampingOnly certificate.now }
{
    known || certificate.stamping_only()
}

// Whether an entry that stops here passed K12.
fn is_for_stamping(failed: Option<TokenFilter>) -> bool
    ensures { IsTrue result → 3 ≤ passed_for_token failed }
{
    match failed {
        Some(filter) => filter > TokenFilter::Purpose,
        None => true,
    }
}

// Where the entry of an authority with this certificate stops, which may be known to be for time-stamping alone, unless
// the verifier vouches for the token's signer.
fn failed_unasked(
    claim: &Claim,
    entry: &Counted,
    place: usize,
    certificate: &Certificate,
    known: bool,
    hashed: &mut Hashed,
) -> TokenFilter
    requires place { slice_get hashed.old place ≡ Some entry.now }
    requires certificate { certificate.now ≡ entry.now.certificate }
    requires stamping { IsTrue known → IsStampingOnly certificate.now }
    ensures stage { (t : Terms) → certificate.now ≡ entry.now.certificate
        → Comes (LeftForToken t claim.now) 4 entry.now (before_token result) }
    ensures listed { hashed.new ≡ hashed.old }
{
    if entry.role() != Role::Tsa {
        return TokenFilter::UnknownTsa;
    }
    if !matches(claim.signer.sid(), certificate) {
        return TokenFilter::UnknownTsa;
    }
    let Some(attributes) = claim.signer.attributes() else {
        return TokenFilter::NotNamed;
    };
    if !must_name(attributes, certificate, place, hashed) {
        return TokenFilter::NotNamed;
    }
    if !is_stamping_only(certificate, known) {
        return TokenFilter::Purpose;
    }
    if !entry.holds_under(certificate, claim.moment) {
        return TokenFilter::Period;
    }
    TokenFilter::SignatureFails
}

// Where the entry of an authority with this certificate stops; `None` if it passes K10 to K14.
fn stage_under<V: Verifier>(
    claim: &Claim,
    entry: &Counted,
    place: usize,
    certificate: &Certificate,
    known: bool,
    verifier: &mut V,
    hashed: &mut Hashed,
) -> Result<Option<TokenFilter>, AskFault>
    requires place { slice_get hashed.old place ≡ Some entry.now }
    requires certificate { certificate.now ≡ entry.now.certificate }
    requires stamping { IsTrue known → IsStampingOnly certificate.now }
    ensures stage { ComesForToken (V.vouches verifier.old) claim.now entry.now result }
    ensures only { AsksForToken (λ test. V.asked_only test verifier.old verifier.new) claim.now entry.now }
    ensures same { V.vouches verifier.new ≡ V.vouches verifier.old }
    ensures count { Counts result (V.failures verifier.old) (V.failures verifier.new) }
    ensures listed { hashed.new ≡ hashed.old }
{
    let failed = failed_unasked(claim, entry, place, certificate, known, hashed);
    if failed != TokenFilter::SignatureFails {
        return Ok(Some(failed));
    }
    let Some(question) = question_of(certificate, &claim.signer) else {
        unreachable!();
    };
    if verifier.ask(&question)? {
        Ok(None)
    } else {
        Ok(Some(TokenFilter::SignatureFails))
    }
}

// Where the entry at this place stops; `None` if it passes K10 to K14. Its certificate is kept if it passes K12, so if
// it is for time-stamping alone, since other tokens may have it.
fn token_stage<'l, V: Verifier>(
    claim: &Claim,
    entry: &Counted<'l>,
    place: usize,
    checker: &mut Checker<'l>,
    verifier: &mut V,
) -> Result<Option<TokenFilter>, AskFault>
    requires place { slice_get checker.old.trust place ≡ Some entry.now }
    ensures stage { ComesForToken (V.vouches verifier.old) claim.now entry.now result }
    ensures only { AsksForToken (λ test. V.asked_only test verifier.old verifier.new) claim.now entry.now }
    ensures same { V.vouches verifier.new ≡ V.vouches verifier.old }
    ensures count { Counts result (V.failures verifier.old) (V.failures verifier.new) }
    ensures stays { checker.new ≡ checker.old }
{
    if let Some(certificate) = checker.authorities.find(place) {
        return stage_under(
            claim,
            entry,
            place,
            certificate,
            true,
            verifier,
            &mut checker.hashed,
        );
    }
    let certificate = entry.certificate();
    let failed = stage_under(
        claim,
        entry,
        place,
        &certificate,
        false,
        verifier,
        &mut checker.hashed,
    )?;
    if is_for_stamping(failed) {
        checker.authorities.keep(place, certificate);
    }
    Ok(failed)
}

/// Where the entry stops that comes furthest; `None` if it passes K10 to K14. Those that stop at K10 by their role or
/// their marks are passed over.
pub(crate) fn token_stages<V: Verifier>(
    claim: &Claim,
    checker: &mut Checker,
    verifier: &mut V,
) -> Result<Option<TokenFilter>, AskFault>
    ensures stage { (t : Terms) → t.vouches ≡ V.vouches verifier.old
        → IfOk result (λ failed. Best (LeftForToken t claim.now) 5 checker.old.trust (passed_for_token failed)) }
    ensures only { (test : Asked → Bool) → ((e : EntryValue) → Contains checker.old.trust e → IsInPeriod claim.now e
        → test (asked e.certificate claim.now.signer claim.now.attributes) ≡ true)
        → V.asked_only test verifier.old verifier.new }
    ensures same { V.vouches verifier.new ≡ V.vouches verifier.old }
    ensures count { Counts result (V.failures verifier.old) (V.failures verifier.new) }
    ensures stays { checker.new ≡ checker.old }
{
    let trust = checker.trust();
    let mut best = Some(TokenFilter::UnknownTsa);
    let mut from = 0;
    while let Some(at) = trust.next(Role::Tsa, claim.signer.sid(), from) {
        let entry = trust.entry(at);
        let failed = token_stage(claim, &entry, at, checker, verifier)?;
        best = further_for_token(best, failed);
        from = at + 1;
    }
    Ok(best)
}

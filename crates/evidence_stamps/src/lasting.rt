//! Whether a token lasts: an entry under which it passes held when it was made, and still holds at a later moment.
ghost use Rattle.std.specs.Prelude.{◌≡◌, ◌↔◌, Bool, true, IsTrue, IfOk, [], Contains, unwrap_or};
ghost use Rattle.devices.specs.Device.{Counts};
ghost use Rattle.trust_lists.specs.Asking.{Asked};
ghost use Rattle.trust_lists.specs.Entries.{EntryValue};
ghost use Rattle.check_verdict.specs.Trusted.{asked};
ghost use Rattle.check_verdict.specs.Asks.{AsksOnly};
ghost use Rattle.check_evidence.specs.Grounds.{Grounds};
ghost use Rattle.check_evidence.specs.Standing.{LastsUnder, Lasts};
ghost use Rattle.evidence_stamps.specs.MayLast.{TokenLasts, MayLast, IsAskedToLast};

use crate::token_state::TokenState;
use cert_types::Certificate;
use check_names::{EachTime, matches, must_name};
use check_verdict::{holds, next_candidate, question_of};
use cms_types::Signer;
use der_time::Moment;
use list_answers::{AskFault, Verifier};
use trust_lists::{Entry, Role, Trust};

// Whether all holds of an entry with this certificate that needs no question.
fn may_last(
    signer: &Signer,
    entry: &Entry,
    certificate: &Certificate,
    moment: Moment,
    until: Moment,
) -> bool
    requires { certificate.now ≡ entry.now.certificate }
    ensures { IsTrue result ↔ MayLast signer.now (unwrap_or signer.now.signed_attributes []) moment until entry.now }
{
    let Some(attributes) = signer.attributes() else {
        return false;
    };
    entry.role() == Role::Tsa
        && matches(signer.sid(), certificate)
        && certificate.stamping_only()
        && holds(entry, moment)
        && holds(entry, until)
        && must_name(attributes, certificate, 0, &mut EachTime)
}

// Whether the token of a signer lasts under this entry.
fn lasts_under<V: Verifier>(
    signer: &Signer,
    entry: &Entry,
    moment: Moment,
    until: Moment,
    verifier: &mut V,
) -> Result<bool, AskFault>
    ensures lasts { (g : Grounds) → g.vouches ≡ V.vouches verifier.old
        → IfOk result (λ b. IsTrue b
        ↔ LastsUnder g signer.now (unwrap_or signer.now.signed_attributes []) moment until entry.now) }
    ensures only { (test : Asked → Bool)
        → (MayLast signer.now (unwrap_or signer.now.signed_attributes []) moment until entry.now
        → test (asked entry.now.certificate signer.now (unwrap_or signer.now.signed_attributes [])) ≡ true)
        → V.asked_only test verifier.old verifier.new }
    ensures same { V.vouches verifier.new ≡ V.vouches verifier.old }
    ensures count { Counts result (V.failures verifier.old) (V.failures verifier.new) }
{
    let certificate = entry.certificate();
    if !may_last(signer, entry, &certificate, moment, until) {
        return Ok(false);
    }
    let Some(question) = question_of(&certificate, signer) else {
        unreachable!();
    };
    let vouched = verifier.ask(&question)?;
    Ok(vouched)
}

// Whether the token of a signer lasts under a trusted entry.
fn lasts_by<V: Verifier>(
    signer: &Signer,
    moment: Moment,
    until: Moment,
    trust: &Trust,
    verifier: &mut V,
) -> Result<bool, AskFault>
    ensures lasts { (g : Grounds) → g.trust ≡ trust.now → g.vouches ≡ V.vouches verifier.old
        → IfOk result (λ b. IsTrue b ↔ Lasts g signer.now (unwrap_or signer.now.signed_attributes []) moment until) }
    ensures only { (test : Asked → Bool) → ((e : EntryValue) → Contains trust.now e
        → MayLast signer.now (unwrap_or signer.now.signed_attributes []) moment until e
        → test (asked e.certificate signer.now (unwrap_or signer.now.signed_attributes [])) ≡ true)
        → V.asked_only test verifier.old verifier.new }
    ensures same { V.vouches verifier.new ≡ V.vouches verifier.old }
    ensures count { Counts result (V.failures verifier.old) (V.failures verifier.new) }
{
    let mut from = 0;
    while let Some(at) = next_candidate(trust, Role::Tsa, signer.sid(), from) {
        let entry = &trust.entries()[at];
        if lasts_under(signer, entry, moment, until, verifier)? {
            return Ok(true);
        }
        from = at + 1;
    }
    Ok(false)
}

/// Whether a token lasts that states this: the verifier vouches for its one signer under a trusted entry of an
/// authority that holds at the moment of the token and also at the end of its use. An entry is passed over that fails
/// what needs no question.
///
/// Errors: `AskFault` if the verifier fails.
pub fn lasts<V: Verifier>(
    state: &TokenState,
    moment: Moment,
    until: Moment,
    trust: &Trust,
    verifier: &mut V,
) -> Result<bool, AskFault>
    // It lasts exactly if the answer is yes.
    ensures lasts { (g : Grounds) → g.trust ≡ trust.now → g.vouches ≡ V.vouches verifier.old
        → IfOk result (λ b. IsTrue b ↔ TokenLasts g state.now.signed moment until) }
    // The verifier is asked only under entries of which all else holds.
    ensures only { AsksOnly (λ test. V.asked_only test verifier.old verifier.new)
        (IsAskedToLast trust.now state.now.signed moment until) }
    // What the verifier vouches for stays the same.
    ensures same { V.vouches verifier.new ≡ V.vouches verifier.old }
    // It failed exactly if there is an error.
    ensures count { Counts result (V.failures verifier.old) (V.failures verifier.new) }
{
    match state.signer() {
        Some(signer) => lasts_by(&signer, moment, until, trust, verifier),
        None => Ok(false),
    }
}

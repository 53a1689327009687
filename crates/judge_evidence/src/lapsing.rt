//! Whether an archive time-stamp that fits lasts until the end of its use: W6 and W7.
ghost use Rattle.std.specs.Prelude.{◌≡◌, ◌↔◌, ℕ, List, [], ◌∷◌, IsTrue, IfSome, IfOk, None, Some, MatchOption};
ghost use Rattle.std.specs.Option.{option_copied};
ghost use Rattle.devices.specs.Device.{Counts};
ghost use Rattle.digests.specs.Algorithms.{Names};
ghost use Rattle.digests.specs.declared.algorithm.Alg.{Alg};
ghost use Rattle.cms_types.specs.SignerValue.{SignerValue};
ghost use Rattle.check_verdict.specs.Asks.{AsksOnly};
ghost use Rattle.check_evidence.specs.StampStates.{HasTime, IsUntil};
ghost use Rattle.check_evidence.specs.Standing.{FitsIn, AlgsHold, Stands};
ghost use Rattle.check_evidence.specs.Failing.{FailsToLast};
ghost use Rattle.evidence_stamps.specs.StateValue.{IsState, IsStateOf};
ghost use Rattle.judge_evidence.specs.Asking.{IsAskedToLastAt};
ghost use Rattle.judge_evidence.specs.Running.{ShowsUntil, IsFound};
ghost use Rattle.judge_evidence.specs.Terms.{grounds_of};
ghost use Rattle.judge_evidence.specs.Walking.{IsAhead};

use crate::stamp_place::StampPlace;
use crate::terms::Terms;
use check_evidence::StampRule;
use der_time::Moment;
use digests::Alg;
use evidence_stamps::{End, Fit, TokenState, alg_holds, lasts};
use list_answers::{AskFault, Verifier};

// The digest algorithm of the one signer of a token.
fn signer_alg(state: &TokenState) -> Option<Alg>
    ensures { (s : SignerValue) (alg : Alg) → state.now.signed.signers ≡ s ∷ []
        → Names s.digest_algorithm.oid s.digest_algorithm.parameters alg → result ≡ Some alg }
{
    let signer = state.signer()?;
    let named = signer.digest_algorithm();
    Alg::of(named.oid(), named.parameters())
}

// Whether the algorithm of the lists and the imprint and that of the signer hold at a moment.
fn algs_hold(ends: &[End], alg: Alg, signer: Option<Alg>, until: Moment) -> bool
    ensures { (its : Alg) → signer ≡ Some its → IsTrue result ↔ AlgsHold ends.now alg alg its until }
{
    match signer {
        Some(signer) => alg_holds(ends, alg, until) && alg_holds(ends, signer, until),
        None => false,
    }
}

// The first of W6 and W7 that it fails at the end of its use.
fn lapse_at<V: Verifier>(
    place: &StampPlace,
    state: &TokenState,
    fit: &Fit,
    until: Moment,
    terms: &Terms,
    verifier: &mut V,
) -> Result<Option<StampRule>, AskFault>
    requires { IsState place.now.stamp.stamp state.now }
    ensures judged { let g = grounds_of terms.now (V.vouches verifier.old) in (data_objects : List (List ℕ))
        → FitsIn g data_objects place.now fit.now.alg fit.now.moment → IsUntil g.at place.now until
        → IfOk result (λ found. MatchOption found (Stands g data_objects place.now)
        (λ failed. FailsToLast g data_objects place.now failed)) }
    ensures only { let g = grounds_of terms.now (V.vouches verifier.old) in (data_objects : List (List ℕ))
        → FitsIn g data_objects place.now fit.now.alg fit.now.moment → IsUntil g.at place.now until
        → AsksOnly (λ test. V.asked_only test verifier.old verifier.new) (IsAskedToLastAt g data_objects place.now) }
    ensures same { V.vouches verifier.new ≡ V.vouches verifier.old }
    ensures count { Counts result (V.failures verifier.old) (V.failures verifier.new) }
{
    if !algs_hold(terms.ends, fit.alg, signer_alg(state), until) {
        return Ok(Some(StampRule::Weak));
    }
    if lasts(state, fit.moment, until, terms.trust, verifier)? {
        Ok(None)
    } else {
        Ok(Some(StampRule::Lapsed))
    }
}

// The end of its use, if it can be told.
fn until_of(
    place: &StampPlace,
    ahead: Option<&TokenState>,
    last: bool,
    at: Option<Moment>,
    moment: Moment,
) -> Option<Moment>
    requires { IsAhead place.now last (option_copied ahead) }
    ensures found { HasTime place.now.stamp moment → IfSome result (IsUntil at place.now) }
    ensures none { result ≡ None → ShowsUntil place.now → ⊥ }
{
    if last {
        return Some(at.unwrap_or(moment));
    }
    match ahead {
        Some(ahead) => Some(ahead.moment()),
        None => None,
    }
}

// The first of W6 and W7 that it fails, if it can be told until when it is used. What its token states, and that of
// the one that follows.
pub(crate) fn found_at<V: Verifier>(
    place: &StampPlace,
    state: Option<&TokenState>,
    ahead: Option<&TokenState>,
    last: bool,
    fit: &Fit,
    terms: &Terms,
    verifier: &mut V,
) -> Result<Option<StampRule>, AskFault>
    requires state { IsStateOf place.now.stamp.stamp (option_copied state) }
    requires ahead { IsAhead place.now last (option_copied ahead) }
    ensures judged { let g = grounds_of terms.now (V.vouches verifier.old) in (data_objects : List (List ℕ))
        → FitsIn g data_objects place.now fit.now.alg fit.now.moment
        → IfOk result (IsFound g data_objects place.now) }
    ensures only { let g = grounds_of terms.now (V.vouches verifier.old) in (data_objects : List (List ℕ))
        → FitsIn g data_objects place.now fit.now.alg fit.now.moment
        → AsksOnly (λ test. V.asked_only test verifier.old verifier.new) (IsAskedToLastAt g data_objects place.now) }
    ensures same { V.vouches verifier.new ≡ V.vouches verifier.old }
    ensures count { Counts result (V.failures verifier.old) (V.failures verifier.new) }
{
    let Some(state) = state else {
        return Ok(None);
    };
    let Some(until) = until_of(place, ahead, last, terms.at, fit.moment) else {
        return Ok(None);
    };
    lapse_at(place, state, fit, until, terms, verifier)
}

//! What is asked of an archive time-stamp by the moment that it states (RFC 4998 4.3 and 5.3): W1 to W5.
ghost use Rattle.std.specs.Prelude.{◌≡◌, ◌≢◌, ◌↔◌, ℕ, List, [], Some, None, Err, true, All, IfOk, IfSome, IsTrue};
ghost use Rattle.std.specs.Prelude.{unwrap_or};
ghost use Rattle.std.specs.Option.{option_copied};
ghost use Rattle.check_verdict.specs.Passing.{Terms, of_digest};
ghost use Rattle.check_verdict.specs.TokenRules.{TokenFailsFor};
ghost use Rattle.check_verdict.specs.Asks.{AsksOnly, IsAskedFor};
ghost use Rattle.check_verdict.specs.Checkers.{terms_for};
ghost use Rattle.check_evidence.specs.Grounds.{Grounds, of_none};
ghost use Rattle.check_evidence.specs.CoveredValues.{AreGiven, AreSome};
ghost use Rattle.check_evidence.specs.Places.{Place};
ghost use Rattle.check_evidence.specs.Roots.{IsAscending};
ghost use Rattle.check_evidence.specs.StampStates.{HasAlg};
ghost use Rattle.evidence_stamps.specs.StateValue.{IsStateOf};
ghost use Rattle.evidence_stamps.specs.PlaceValues.{IsAround, AreWell};
ghost use Rattle.evidence_stamps.specs.FitSteps.{IsBy, IsFitOf, CountsUnfit, IsAskedOfStamp};
ghost use Rattle.evidence_stamps.specs.FitSteps.{RootsOrFails, PassesOrFails, IsBetween};
ghost use Rattle.check_fit.specs.Fitting.{with_sha1};

use crate::algorithm::{alg_of, shows_alg};
use crate::around::Around;
use crate::token_state::TokenState;
use crate::unfit::{Fit, Unfit};
use check_evidence::{Covered, StampRule, are_covered, have_lengths, root_of};
use check_fit::{DeviceFault, Policy, TokenRefused, TokenRule};
use check_verdict::{Checker, Stamp, judge_stamp};
use der_time::Moment;
use digests::{Alg, Digest};
use evidence_types::{ArchiveTimeStamp, HashLists};
use list_answers::Verifier;
use std::alloc::Global;

// W1: the algorithm of a stamp, if it is that of the first of its chain.
fn alg_in_chain(
    stamp: &ArchiveTimeStamp,
    state: Option<&TokenState>,
    first: Option<Alg>,
) -> Option<Alg>
    requires { IsStateOf stamp.now.stamp (option_copied state) }
    ensures found { IfSome result (λ alg. HasAlg stamp.now alg × (first ≡ Some alg)) }
    ensures only { (alg : Alg) → HasAlg stamp.now alg → first ≡ Some alg → result ≡ Some alg }
{
    let alg = alg_of(stamp, state)?;
    if first? == alg { Some(alg) } else { None }
}

// W2 and W3, and the root of the lists.
fn root_for(
    alloc: Global,
    alg: Alg,
    lists: Option<&HashLists>,
    covered: &Covered,
) -> Result<Digest, Unfit>
    requires given { AreGiven alg covered.now }
    requires some { AreSome covered.now }
    ensures root { RootsOrFails alg (option_copied lists.entry) covered.now result }
    ensures memory { All IsAscending (unwrap_or (option_copied lists.entry) [])
        → result ≢ Err (Unfit.Device DeviceFault.OutOfMemory) }
{
    if !have_lengths(lists, alg) {
        return Err(Unfit::Rule(StampRule::HashLength));
    }
    if !are_covered(lists, alg, covered) {
        return Err(Unfit::Rule(StampRule::NotCovered));
    }
    match root_of(alloc, alg, lists, covered) {
        Ok(Some(root)) => Ok(root),
        // Where nothing is the root, nothing is covered.
        Ok(None) => Err(Unfit::Rule(StampRule::NotCovered)),
        Err(_) => Err(Unfit::Device(DeviceFault::OutOfMemory)),
    }
}

// W4 of a token that states nothing.
fn rule_of_unread(token: &[u8]) -> TokenRule
    requires { IsStateOf token.now None }
    ensures { (t : Terms) → t.policy ≡ with_sha1 true → TokenFailsFor t token.now of_none result }
{
    match Stamp::read(Policy::with_sha1(true), token) {
        Ok(_) => unreachable!(),
        Err(failed) => failed,
    }
}

// W4, and the moment of the token.
fn moment_of<V: Verifier>(
    token: &[u8],
    root: &Digest,
    checker: &mut Checker,
    verifier: &mut V,
) -> Result<Moment, Unfit>
    ensures judged { let terms = terms_for checker.old (V.vouches verifier.old) in
        PassesOrFails terms token.now (of_digest root.now) result }
    ensures only { AsksOnly (λ test. V.asked_only test verifier.old verifier.new)
        (IsAskedFor checker.old.policy checker.old.trust (of_digest root.now) token.now) }
    ensures same { V.vouches verifier.new ≡ V.vouches verifier.old }
    ensures count { CountsUnfit result (V.failures verifier.old) (V.failures verifier.new) }
    ensures stays { checker.new ≡ checker.old }
{
    let stamp = match Stamp::read(checker.policy(), token) {
        Ok(stamp) => stamp,
        Err(failed) => return Err(Unfit::Rule(StampRule::Token(failed))),
    };
    match judge_stamp(&stamp, root, checker, verifier) {
        Ok(accepted) => Ok(accepted.moment),
        Err(TokenRefused::Rule(failed)) => Err(Unfit::Rule(StampRule::Token(failed))),
        Err(TokenRefused::Device(fault)) => Err(Unfit::Device(fault)),
    }
}

// W5: whether a moment is later than that before, and no later than the last that there may be.
fn is_between(around: &Around, moment: Moment) -> bool
    ensures { IsTrue result ↔ IsBetween around.now moment }
{
    let later = match around.before {
        Some(before) => before < moment,
        None => true,
    };
    let in_time = match around.latest {
        Some(latest) => moment <= latest,
        None => true,
    };
    later && in_time
}

/// Whether an archive time-stamp fits, whose token states this and which stands in this place: its algorithm is that of
/// its chain (W1), its hash values have their lengths (W2) and cover what they must (W3), its token passes on the root
/// of its lists (W4), and its moment is in its order (W5). Which algorithms hold, and until when, is not asked. Memory
/// is asked for only to bring hash values into ascending order.
///
/// Errors: the first of W1 to W5 that fails: W4 first if the algorithm can't be asked for, since there is no field and
/// no token that can be read; X2 if the verifier fails; X4 if memory is refused.
pub fn fit_of<V: Verifier>(
    alloc: Global,
    stamp: &ArchiveTimeStamp,
    state: Option<&TokenState>,
    around: &Around,
    checker: &mut Checker,
    verifier: &mut V,
) -> Result<Fit, Unfit>
    // This is what its token states.
    requires state { IsStateOf stamp.now.stamp (option_copied state) }
    // The values that it must cover can be computed by the algorithm, and there is one.
    requires well { AreWell around.now }
    // It fits at each such place, or fails the rule first.
    ensures judged { (g : Grounds) (data_objects : List (List ℕ)) (p : Place) → p.stamp ≡ stamp.now
        → IsBy g checker.old (V.vouches verifier.old) → IsAround g data_objects p around.now
        → IsFitOf g data_objects p result }
    // The verifier is asked only about its token, if W1 to W3 hold.
    ensures only { AsksOnly (λ test. V.asked_only test verifier.old verifier.new)
        (IsAskedOfStamp checker.old stamp.now around.now) }
    // Its algorithm is that of its chain.
    ensures alg { IfOk result (λ fit. around.now.alg ≡ Some fit.alg) }
    // No memory is asked for if each of its lists stands in ascending order.
    ensures memory { All IsAscending (unwrap_or stamp.now.lists [])
        → result ≢ Err (Unfit.Device DeviceFault.OutOfMemory) }
    // What the verifier vouches for stays the same.
    ensures same { V.vouches verifier.new ≡ V.vouches verifier.old }
    // It failed exactly if the answer says so.
    ensures count { CountsUnfit result (V.failures verifier.old) (V.failures verifier.new) }
    // What the check goes by stays the same.
    ensures stays { checker.new ≡ checker.old }
{
    if !shows_alg(stamp, state) {
        let failed = rule_of_unread(stamp.stamp());
        return Err(Unfit::Rule(StampRule::Token(failed)));
    }
    let Some(alg) = alg_in_chain(stamp, state, around.alg) else {
        return Err(Unfit::Rule(StampRule::Algorithm));
    };
    let root = root_for(alloc, alg, stamp.lists(), &around.covered)?;
    let moment = moment_of(stamp.stamp(), &root, checker, verifier)?;
    if !is_between(around, moment) {
        return Err(Unfit::Rule(StampRule::Order));
    }
    Ok(Fit { alg, moment })
}

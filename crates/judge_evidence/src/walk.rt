//! The judgement of the chains of a record: one archive time-stamp after the other (RFC 4998 5.3).
ghost use Rattle.std.specs.Prelude.{◌≡◌, ◌≢◌, ℕ, true, List, [], Some, None, IfOk, IfErr, IfSome};
ghost use Rattle.std.specs.Prelude.{MatchOption, Err, false, if◌then◌else◌};
ghost use Rattle.std.specs.Option.{option_copied};
ghost use Rattle.devices.specs.Device.{Counts};
ghost use Rattle.der_core.specs.Values.{HasLength};
ghost use Rattle.digests.specs.declared.algorithm.Alg.{Alg};
ghost use Rattle.check_fit.specs.declared.rules.DeviceFault.{DeviceFault};
ghost use Rattle.evidence_types.specs.StampValue.{StampValue};
ghost use Rattle.evidence_types.specs.EvidenceValue.{chains_parts};
ghost use Rattle.check_verdict.specs.Asks.{AsksOnly};
ghost use Rattle.check_evidence.specs.CoveredValues.{AreValues, AreGiven};
ghost use Rattle.check_evidence.specs.Grounds.{Grounds};
ghost use Rattle.check_evidence.specs.Roots.{HasNoOthers};
ghost use Rattle.check_evidence.specs.Places.{chain_number, stamp_number};
ghost use Rattle.check_evidence.specs.StampStates.{HasAlg};
ghost use Rattle.check_evidence.specs.Standing.{FitsIn};
ghost use Rattle.evidence_stamps.specs.StateValue.{IsStateOf};
ghost use Rattle.evidence_stamps.specs.PlaceValues.{IsChainAlg};
ghost use Rattle.judge_evidence.specs.Asking.{IsAskedToLastAt, IsAskedAt, IsAskedOfChains};
ghost use Rattle.judge_evidence.specs.Data.{AreOfData, HaveAlg, HaveWanted};
ghost use Rattle.judge_evidence.specs.Ordering.{IsOutOfOrder, HasOutOfOrder};
ghost use Rattle.judge_evidence.specs.Running.{KnowsChainAlg, IsRunAt, IsRunOver, IsFound, lapse_with};
ghost use Rattle.judge_evidence.specs.Terms.{grounds_of, checker_of};
ghost use Rattle.judge_evidence.specs.Walking.{IsAhead, IsChainsVerdict, IsRunOf, IsBegunBy, CountsRefused, refused_at};

use crate::data::covered_at;
use crate::lapsing::found_at;
use crate::run::{Begun, Lapse, Run};
use crate::stamp_place::StampPlace;
use crate::terms::Terms;
use check_evidence::{Covered, EvidenceRefused, StampRule, has_no_others};
use check_fit::{DeviceFault, Policy};
use check_verdict::Checker;
use der_time::Moment;
use digests::{Alg, WantedDigests};
use evidence_stamps::{Around, Fit, TokenState, Unfit, alg_of, fit_of};
use evidence_types::{ArchiveTimeStamp, Chains, HashLists};
use list_answers::Verifier;
use std::alloc::Global;

// What an archive time-stamp's token states.
fn state_of<'a>(stamp: &ArchiveTimeStamp<'a>) -> Option<TokenState<'a>>
    ensures { IsStateOf stamp.now.stamp result }
{
    TokenState::read(stamp.stamp())
}

// What that of the following one states, and whether there is none.
fn look_ahead<'a>(place: &StampPlace<'a>) -> (Option<TokenState<'a>>, bool)
    ensures { IsAhead place.now result.1 result.0 }
{
    match place.following() {
        Some(next) => (state_of(&next), false),
        None => (None, true),
    }
}

// The algorithm of the first stamp of its chain: its own, or the one that is known.
fn chain_alg(place: &StampPlace, its: Option<&TokenState>, known: Option<Alg>) -> Option<Alg>
    requires { IsStateOf place.now.stamp.stamp (option_copied its) }
    ensures own { place.now.before ≡ [] → IfSome result (HasAlg place.now.stamp) }
    ensures chain { KnowsChainAlg place.now known → IsChainAlg place.now result }
{
    if place.is_first_of_chain() {
        alg_of(place.stamp(), its)
    } else {
        known
    }
}

// Whether other values stand in the first list, where none may.
fn has_others(lists: Option<&HashLists>, alg: Alg, covered: &Covered, alone: bool) -> bool
    requires { AreGiven alg covered.now }
    ensures others { result ≡ true → (alone ≡ true) × ((due : List (List ℕ)) → AreValues alg covered.now due
        → HasNoOthers (option_copied lists.entry) due → ⊥) }
    ensures none { result ≡ false → alone ≡ true → (due : List (List ℕ)) → AreValues alg covered.now due
        → HasNoOthers (option_copied lists.entry) due }
{
    if !alone {
        return false;
    }
    !has_no_others(lists, alg, covered)
}

// What the first of all shows, which fits and must cover these values.
fn begun(place: &StampPlace, fit: &Fit, covered: &Covered, alone: bool) -> Begun
    requires { AreGiven fit.now.alg covered.now }
    ensures { IsBegunBy place.now.stamp.lists fit.now.alg covered.now fit.now.moment alone result }
{
    Begun {
        moment: fit.moment,
        others: has_others(place.stamp().lists(), fit.alg, covered, alone),
    }
}

// The first lapse, with what was found of this place, if there was none before.
fn lapse_with(place: &StampPlace, lapsed: Option<Lapse>, found: Option<StampRule>) -> Option<Lapse>
    ensures { result ≡ lapse_with found (chain_number place.now) (stamp_number place.now) lapsed }
{
    match lapsed {
        Some(lapse) => Some(lapse),
        None => Some(Lapse {
            chain: place.chain_number(),
            stamp: place.stamp_number(),
            rule: found?,
        }),
    }
}

// Why a record is refused whose archive time-stamp at this place doesn't fit.
fn refused_at(place: &StampPlace, unfit: Unfit) -> EvidenceRefused
    ensures { result ≡ refused_at (chain_number place.now) (stamp_number place.now) unfit }
{
    match unfit {
        Unfit::Rule(rule) => EvidenceRefused::Stamp {
            chain: place.chain_number(),
            stamp: place.stamp_number(),
            rule,
        },
        Unfit::Device(fault) => EvidenceRefused::Device(fault),
    }
}

// What the tokens of an archive time-stamp and of the one that follows state, and whether none follows.
#[derive(Drop)]
struct States<'a> {
    its: Option<TokenState<'a>>,
    ahead: Option<TokenState<'a>>,
    last: bool,
}

// None of W6 and W7, or the first of them, of a place that fits. After the first lapse nothing is looked for.
fn found_of<V: Verifier>(
    place: &StampPlace,
    states: &States,
    run: &Run,
    fit: &Fit,
    terms: &Terms,
    verifier: &mut V,
) -> Result<Option<StampRule>, EvidenceRefused>
    requires state { IsStateOf place.now.stamp.stamp states.now.its }
    requires ahead { IsAhead place.now states.now.last states.now.ahead }
    ensures judged { let g = grounds_of terms.now (V.vouches verifier.old) in (data_objects : List (List ℕ))
        → FitsIn g data_objects place.now fit.now.alg fit.now.moment → run.now.lapsed ≡ None
        → IfOk result (IsFound g data_objects place.now) }
    ensures only { let g = grounds_of terms.now (V.vouches verifier.old) in (data_objects : List (List ℕ))
        → FitsIn g data_objects place.now fit.now.alg fit.now.moment
        → AsksOnly (λ test. V.asked_only test verifier.old verifier.new)
        (λ q. (run.now.lapsed ≡ None) × IsAskedToLastAt g data_objects place.now q) }
    ensures device { IfErr result (λ r. r ≡ EvidenceRefused.Device DeviceFault.AskFailed) }
    ensures same { V.vouches verifier.new ≡ V.vouches verifier.old }
    ensures count { Counts result (V.failures verifier.old) (V.failures verifier.new) }
{
    if run.lapsed.is_some() {
        return Ok(None);
    }
    let (its, ahead) = (states.its.as_ref(), states.ahead.as_ref());
    match found_at(place, its, ahead, states.last, fit, terms, verifier) {
        Ok(found) => Ok(found),
        Err(_) => Err(EvidenceRefused::Device(DeviceFault::AskFailed)),
    }
}

// What is known after a place that fits and must cover these values.
fn run_past(
    place: &StampPlace,
    run: &Run,
    fit: &Fit,
    found: Option<StampRule>,
    covered: &Covered,
    alone: bool,
) -> Run
    requires { AreGiven fit.now.alg covered.now }
    ensures alg { result.alg ≡ Some fit.now.alg }
    ensures before { result.before ≡ Some fit.now.moment }
    ensures lapsed { result.lapsed ≡ lapse_with found (chain_number place.now) (stamp_number place.now)
        run.now.lapsed }
    ensures begun { MatchOption run.now.begun (IfSome result.begun (IsBegunBy place.now.stamp.lists
        fit.now.alg covered.now fit.now.moment alone)) (λ b. result.begun ≡ Some b) }
    ensures some { result.begun ≢ None }
{
    let begun = match run.begun {
        Some(begun) => begun,
        None => begun(place, fit, covered, alone),
    };
    Run {
        alg: Some(fit.alg),
        before: Some(fit.moment),
        lapsed: lapse_with(place, run.lapsed, found),
        begun: Some(begun),
    }
}

// The last moment that it may have: if it is the last, the one that is named.
fn latest_of(last: bool, at: Option<Moment>) -> Option<Moment>
    ensures { result ≡ (if last then at else None) }
{
    if last { at } else { None }
}

// Judges the archive time-stamp at a place by what is known of those before.
fn judge_at<V: Verifier>(
    alloc: Global,
    place: &StampPlace,
    states: &States,
    run: &Run,
    digests: &[WantedDigests],
    terms: &Terms,
    checker: &mut Checker,
    verifier: &mut V,
) -> Result<Run, EvidenceRefused>
    requires state { IsStateOf place.now.stamp.stamp states.now.its }
    requires ahead { IsAhead place.now states.now.last states.now.ahead }
    requires some { digests.now ≢ [] }
    requires wanted { place.now.before ≡ [] → (alg : Alg) → HasAlg place.now.stamp alg → HaveAlg alg digests.now }
    requires room { HasLength (chains_parts place.now.earlier) }
    requires goes { checker.old ≡ checker_of terms.now }
    ensures begun { IfOk result (λ run. run.begun ≢ None) }
    ensures judged { let g = grounds_of terms.now (V.vouches verifier.old) in
        (chains : List (List StampValue)) (data_objects : List (List ℕ)) → AreOfData digests.now data_objects
        → IsRunAt g data_objects chains place.now run.now → IsRunOf g data_objects chains place.now result }
    ensures only { let g = grounds_of terms.now (V.vouches verifier.old) in
        (chains : List (List StampValue)) (data_objects : List (List ℕ)) → AreOfData digests.now data_objects
        → IsRunAt g data_objects chains place.now run.now
        → AsksOnly (λ test. V.asked_only test verifier.old verifier.new) (IsAskedAt g data_objects chains place.now) }
    ensures memory { result ≡ Err (EvidenceRefused.Device DeviceFault.OutOfMemory) → IsOutOfOrder place.now.stamp }
    ensures same { V.vouches verifier.new ≡ V.vouches verifier.old }
    ensures count { CountsRefused result (V.failures verifier.old) (V.failures verifier.new) }
    ensures stays { checker.new ≡ checker.old }
{
    let its = states.its.as_ref();
    let alg = chain_alg(place, its, run.alg);
    let covered = covered_at(place, alg, digests);
    let around = Around {
        alg,
        covered,
        before: run.before,
        latest: latest_of(states.last, terms.at),
    };
    let fit = match fit_of(alloc, place.stamp(), its, &around, checker, verifier) {
        Ok(fit) => fit,
        Err(unfit) => return Err(refused_at(place, unfit)),
    };
    let found = match found_of(place, states, run, &fit, terms, verifier) {
        Ok(found) => found,
        Err(refused) => return Err(refused),
    };
    Ok(run_past(place, run, &fit, found, &covered, terms.whole))
}

// The verdict, after all places were judged.
fn verdict_of(run: &Run) -> Result<Moment, EvidenceRefused>
    requires { run.now.begun ≢ None }
    ensures judged { (g : Grounds) (chains : List (List StampValue)) (data_objects : List (List ℕ))
        → IsRunOver g data_objects chains run.now → IsChainsVerdict g data_objects chains result }
    ensures device { (fault : DeviceFault) → result ≢ Err (EvidenceRefused.Device fault) }
{
    if let Some(lapse) = run.lapsed {
        return Err(EvidenceRefused::Stamp {
            chain: lapse.chain,
            stamp: lapse.stamp,
            rule: lapse.rule,
        });
    }
    match run.begun {
        Some(begun) if begun.others => Err(EvidenceRefused::Stamp {
            chain: 1,
            stamp: 1,
            rule: StampRule::Others,
        }),
        Some(begun) => Ok(begun.moment),
        None => unreachable!(),
    }
}

// The moment that the chains of a record show for data objects with these digests.
pub(crate) fn judge_chains<V: Verifier>(
    alloc: Global,
    chains: &Chains,
    digests: &[WantedDigests],
    terms: &Terms,
    verifier: &mut V,
) -> Result<Moment, EvidenceRefused>
    requires chains { chains.now ≢ [] }
    requires room { HasLength (chains_parts chains.now) }
    requires some { digests.now ≢ [] }
    requires wanted { HaveWanted chains.now digests.now }
    ensures judged { let g = grounds_of terms.now (V.vouches verifier.old) in (data_objects : List (List ℕ))
        → AreOfData digests.now data_objects → IsChainsVerdict g data_objects chains.now result }
    ensures only { let g = grounds_of terms.now (V.vouches verifier.old) in (data_objects : List (List ℕ))
        → AreOfData digests.now data_objects
        → AsksOnly (λ test. V.asked_only test verifier.old verifier.new) (IsAskedOfChains g data_objects chains.now) }
    ensures memory { result ≡ Err (EvidenceRefused.Device DeviceFault.OutOfMemory) → HasOutOfOrder chains.now }
    ensures same { V.vouches verifier.new ≡ V.vouches verifier.old }
    ensures count { CountsRefused result (V.failures verifier.old) (V.failures verifier.new) }
{
    // SHA-1 is allowed: which algorithms hold, and until when, is asked by itself.
    let mut checker = Checker::of(terms.trust, Policy::with_sha1(true));
    let mut place = StampPlace::first(chains);
    let mut its = state_of(place.stamp());
    let mut run = Run {
        alg: None,
        before: None,
        lapsed: None,
        begun: None,
    };
    loop {
        let (ahead, last) = look_ahead(&place);
        let states = States { its, ahead, last };
        run = match judge_at(
            alloc,
            &place,
            &states,
            &run,
            digests,
            terms,
            &mut checker,
            verifier,
        ) {
            Ok(run) => run,
            Err(refused) => return Err(refused),
        };
        let States {
            its: _,
            ahead,
            last: _,
        } = states;
        its = ahead;
        match place.next() {
            Some(next) => place = next,
            None => return verdict_of(&run),
        }
    }
}

//! By which algorithms data objects must be digested for a record.
ghost use Rattle.std.specs.Prelude.{◌≡◌, ◌≢◌, ◌⊎◌, [], true};
ghost use Rattle.digests.specs.Sets.{is_in};
ghost use Rattle.digests.specs.declared.algorithm.Alg.{Alg};
ghost use Rattle.check_evidence.specs.StampStates.{HasAlg};
ghost use Rattle.judge_evidence.specs.Data.{AreFirstAlgs};
ghost use Rattle.judge_evidence.specs.RecordVerdicts.{IsWanted};

use crate::check::opened;
use crate::stamp_place::StampPlace;
use check_evidence::RecordRule;
use digests::Algs;
use evidence_stamps::{TokenState, alg_of};
use evidence_types::Chains;

// These and the algorithm of an archive time-stamp that is the first of its chain.
fn with_alg_of(place: &StampPlace, wanted: Algs) -> Algs
    ensures kept { (alg : Alg) → is_in alg wanted ≡ true → is_in alg result ≡ true }
    ensures own { place.now.before ≡ [] → (alg : Alg) → HasAlg place.now.stamp alg → is_in alg result ≡ true }
    ensures only { (alg : Alg) → is_in alg result ≡ true
        → (is_in alg wanted ≡ true) ⊎ ((place.now.before ≡ []) × HasAlg place.now.stamp alg) }
{
    if !place.is_first_of_chain() {
        return wanted;
    }
    let state = TokenState::read(place.stamp().stamp());
    match alg_of(place.stamp(), state.as_ref()) {
        Some(alg) => wanted.with(alg),
        None => wanted,
    }
}

// Those of the first archive time-stamps of chains.
fn wanted_of(chains: &Chains) -> Algs
    requires { chains.now ≢ [] }
    ensures { AreFirstAlgs chains.now result }
{
    let mut wanted = Algs::none();
    let mut place = StampPlace::first(chains);
    loop {
        wanted = with_alg_of(&place, wanted);
        match place.next() {
            Some(next) => place = next,
            None => return wanted,
        }
    }
}

/// The algorithms by which data objects must be digested for `check_evidence` (RFC 4998 5.2): those of the first
/// archive time-stamps of the chains, and no others.
///
/// Errors: V1 and V2.
pub fn wanted_by(octets: &[u8]) -> Result<Algs, RecordRule>
    // The record's data are open, and it wants these; or it fails the rule.
    ensures { IsWanted octets.now result }
{
    match opened(octets) {
        Ok(evidence) => Ok(wanted_of(evidence.chains())),
        Err(failed) => Err(failed),
    }
}

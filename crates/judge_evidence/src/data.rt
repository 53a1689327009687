//! What an archive time-stamp must cover (RFC 4998 4.3 and 5.3).
ghost use Rattle.std.specs.Prelude.{◌≡◌, ◌≢◌, ℕ, List, [], Some};
ghost use Rattle.der_core.specs.Values.{HasLength};
ghost use Rattle.digests.specs.declared.algorithm.Alg.{Alg};
ghost use Rattle.evidence_types.specs.EvidenceValue.{chains_parts};
ghost use Rattle.check_evidence.specs.Covering.{covered_at};
ghost use Rattle.check_evidence.specs.CoveredValues.{AreValues, AreGiven, AreSome};
ghost use Rattle.judge_evidence.specs.Data.{AreOfData, HaveAlg, IsOfChains};

use crate::stamp_place::StampPlace;
use check_evidence::{Covered, covered_after, digest_of_chains};
use digests::{Alg, Digest, WantedDigests};

// The digest of the sequence of the chains before a place, if there are any (RFC 4998 5.2, step 3).
fn digest_before(place: &StampPlace, alg: Alg) -> Option<Digest>
    requires { HasLength (chains_parts place.now.earlier) }
    ensures { IsOfChains alg place.now.earlier result }
{
    if place.is_in_first_chain() {
        return None;
    }
    Some(digest_of_chains(alg, place.earlier_octets()))
}

// The values by this algorithm that the stamp at a place must cover.
fn covered_by<'d>(place: &StampPlace, alg: Alg, digests: &'d [WantedDigests]) -> Covered<'d>
    requires some { digests.now ≢ [] }
    requires wanted { place.now.before ≡ [] → HaveAlg alg digests.now }
    requires room { HasLength (chains_parts place.now.earlier) }
    ensures given { AreGiven alg result }
    ensures some { AreSome result }
    ensures covered { (data_objects : List (List ℕ)) → AreOfData digests.now data_objects
        → AreValues alg result (covered_at alg data_objects place.now) }
{
    match place.previous() {
        Some(before) => Covered::One(covered_after(alg, before)),
        None => Covered::Each {
            chains: digest_before(place, alg),
            digests,
        },
    }
}

// The same, if there is an algorithm.
pub(crate) fn covered_at<'d>(
    place: &StampPlace,
    alg: Option<Alg>,
    digests: &'d [WantedDigests],
) -> Covered<'d>
    requires some { digests.now ≢ [] }
    requires wanted { place.now.before ≡ [] → (a : Alg) → alg ≡ Some a → HaveAlg a digests.now }
    requires room { HasLength (chains_parts place.now.earlier) }
    ensures given { (a : Alg) → alg ≡ Some a → AreGiven a result }
    ensures some { AreSome result }
    ensures covered { (data_objects : List (List ℕ)) → AreOfData digests.now data_objects
        → (a : Alg) → alg ≡ Some a → AreValues a result (covered_at a data_objects place.now) }
{
    match alg {
        Some(alg) => covered_by(place, alg, digests),
        None => Covered::Each {
            chains: None,
            digests,
        },
    }
}

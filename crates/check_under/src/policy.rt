//! Which algorithms are allowed by a moment.
ghost use Rattle.std.specs.Prelude.{◌≡◌, ◌≢◌, ◌↔◌, false, IsTrue};
ghost use Rattle.digests.specs.declared.algorithm.Alg.{Alg};
ghost use Rattle.digests.specs.Sets.{is_in};
ghost use Rattle.check_evidence.specs.Ends.{AlgHolds};
ghost use Rattle.check_under.specs.Under.{AllowsAt};

use check_fit::Policy;
use der_time::Moment;
use digests::{Alg, Algs};
use evidence_stamps::{End, alg_holds};

/// The set with an algorithm that isn't in it yet, if that holds at the moment.
fn with_held(set: Algs, alg: Alg, ends: &[End], moment: Moment) -> Algs
    requires { is_in alg set ≡ false }
    ensures its { IsTrue (is_in alg result) ↔ AlgHolds ends.now alg moment }
    ensures others { (other : Alg) → other ≢ alg → is_in other result ≡ is_in other set }
{
    if alg_holds(ends, alg, moment) {
        set.with(alg)
    } else {
        set
    }
}

/// The algorithms that hold at a moment.
fn algs_at(ends: &[End], moment: Moment) -> Algs
    ensures { (alg : Alg) → IsTrue (is_in alg result) ↔ AlgHolds ends.now alg moment }
{
    let set = with_held(Algs::none(), Alg::Sha1, ends, moment);
    let set = with_held(set, Alg::Sha224, ends, moment);
    let set = with_held(set, Alg::Sha256, ends, moment);
    let set = with_held(set, Alg::Sha384, ends, moment);
    let set = with_held(set, Alg::Sha512, ends, moment);
    let set = with_held(set, Alg::Sha512_224, ends, moment);
    with_held(set, Alg::Sha512_256, ends, moment)
}

/// The policy that allows an algorithm exactly if it holds at a moment, by the ends that are given.
pub fn policy_at(ends: &[End], moment: Moment) -> Policy
    ensures { AllowsAt ends.now moment result }
{
    Policy {
        allowed: algs_at(ends, moment),
    }
}

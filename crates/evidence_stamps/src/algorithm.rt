//! The algorithm of an archive time-stamp (RFC 4998 4.1).
ghost use Rattle.std.specs.Prelude.{◌≡◌, ◌↔◌, Some, IfSome, IsTrue};
ghost use Rattle.std.specs.Option.{option_copied};
ghost use Rattle.check_evidence.specs.StampStates.{HasAlg, ShowsAlg};
ghost use Rattle.evidence_stamps.specs.StateValue.{IsStateOf};

use crate::token_state::TokenState;
use digests::Alg;
use evidence_types::ArchiveTimeStamp;

/// The algorithm of the lists of an archive time-stamp, whose token states this: that of `digestAlgorithm`, or, where
/// the field is absent, that of the imprint (RFC 4998 4.1). `None` if there is none that is known.
pub fn alg_of(stamp: &ArchiveTimeStamp, state: Option<&TokenState>) -> Option<Alg>
    requires { IsStateOf stamp.now.stamp (option_copied state) }
    // An algorithm that is returned is its algorithm.
    ensures found { IfSome result (HasAlg stamp.now) }
    // An algorithm that it has is returned.
    ensures only { (alg : Alg) → HasAlg stamp.now alg → result ≡ Some alg }
{
    match stamp.algorithm() {
        Some(named) => Alg::of(named.oid(), named.parameters()),
        None => match state {
            Some(state) => state.imprint_alg(),
            None => None,
        },
    }
}

/// Whether the algorithm of an archive time-stamp, whose token states this, can be asked for: it has the field
/// `digestAlgorithm`, or its token can be read.
pub fn shows_alg(stamp: &ArchiveTimeStamp, state: Option<&TokenState>) -> bool
    requires { IsStateOf stamp.now.stamp (option_copied state) }
    ensures { IsTrue result ↔ ShowsAlg stamp.now.algorithm stamp.now }
{
    stamp.algorithm().is_some() || state.is_some()
}

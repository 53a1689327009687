ghost use Rattle.std.specs.Prelude.{◌≡◌};
ghost use Rattle.digests.specs.Named.{alg_named};
ghost use Rattle.evidence_making.specs.Renewed.{is_this, is_named};

use der_core::AlgorithmIdentifier;
use der_lists::AlgorithmIdentifiers;
use digests::Alg;

// Whether an AlgorithmIdentifier names the algorithm.
pub(crate) fn names(algorithm: &AlgorithmIdentifier, alg: Alg) -> bool
    ensures { result ≡ is_this alg (alg_named algorithm.now) }
{
    match Alg::of(algorithm.oid(), algorithm.parameters()) {
        Some(named) => named == alg,
        None => false,
    }
}

// Whether one of these names the algorithm.
pub(crate) fn is_named(algorithms: &AlgorithmIdentifiers, alg: Alg) -> bool
    ensures { result ≡ is_named alg algorithms.now }
{
    let mut left = algorithms.again();
    while let Some((algorithm, others)) = left.next() {
        if names(&algorithm, alg) {
            return true;
        }
        left = others;
    }
    false
}

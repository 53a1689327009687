ghost use Rattle.std.specs.Prelude.{◌≡◌, ◌∷◌, ◌+◌, ℕ, List, [], true, MatchOption, IfSome};
ghost use Rattle.digests.specs.Digests.{alg_of, octets_of};
ghost use Rattle.digests.specs.Selection.{set_given};
ghost use Rattle.digests.specs.Sets.{is_in};
ghost use Rattle.check_evidence.specs.CoveredValues.{IsValueOf, AreValues, AreGiven, how_many};

use crate::covering::covered_later;
use digests::{Alg, Digest, WantedDigests};

/// The values that an archive time-stamp must cover (RFC 4998 4.3, 5.2 and 5.3), as a view of the digests of which they
/// are made. Each is computed when it is asked for, and none is kept.
#[derive(Clone, Copy, Debug)]
pub enum Covered<'d> {
    /// One value: the digest of the time-stamp before it in its chain.
    One(Digest),
    /// A value for each data object.
    Each {
        /// The digest of the sequence of the chains before, if there are any.
        chains: Option<Digest>,
        /// The digests of the data objects.
        digests: &'d [WantedDigests],
    },
}

// The value that must be covered for a data object.
fn value_of(alg: Alg, chains: Option<Digest>, data_object: &WantedDigests) -> Digest
    requires { is_in alg (set_given data_object.now) ≡ true }
    ensures algorithm { alg_of result ≡ alg }
    ensures value { (value : List ℕ) → IsValueOf alg chains data_object.now value → value ≡ octets_of result }
{
    let Some(digest) = data_object.of(alg) else {
        unreachable!()
    };
    match chains {
        Some(chains) => covered_later(alg, &digest, &chains),
        None => digest,
    }
}

impl<'d> Covered<'d> {
    // How many there are.
    pub(crate) fn len(&self) -> usize
        ensures { result ≡ how_many self.now }
    {
        match self {
            Covered::One(_) => 1,
            Covered::Each { chains: _, digests } => digests.len(),
        }
    }

    /// The first value and the others, or `None` if there is none. It allocates nothing.
    pub fn next(&self, alg: Alg) -> Option<(Digest, Covered<'d>)>
        requires { AreGiven alg self.now }
        // It is by this algorithm.
        ensures algorithm { IfSome result (λ x. alg_of x.0 ≡ alg) }
        // The others can be computed as well.
        ensures given { IfSome result (λ x. AreGiven alg x.1) }
        // They are the first of the values and the others.
        ensures values { (values : List (List ℕ)) → AreValues alg self.now values → MatchOption result (values ≡ [])
            (λ x. (rest : List (List ℕ)) × (values ≡ octets_of x.0 ∷ rest) × AreValues alg x.1 rest) }
        // The others are one fewer.
        ensures count { IfSome result (λ x. how_many self.now ≡ how_many x.1 + 1) }
    {
        match self {
            Covered::One(value) => {
                let none = Covered::Each {
                    chains: None,
                    digests: &[],
                };
                Some((*value, none))
            }
            Covered::Each { chains, digests } => {
                let (first, others) = digests.split_first()?;
                let rest = Covered::Each {
                    chains: *chains,
                    digests: others,
                };
                Some((value_of(alg, *chains, first), rest))
            }
        }
    }
}

//! The hashing of a content: by hashers that take its octets as they pass, or of a content that is handed in.
ghost use Rattle.std.specs.Prelude.{◌≡◌, IsTrue, [], false, MatchBool};
ghost use Rattle.digests.specs.declared.algorithm.Alg.{Alg};
ghost use Rattle.digests.specs.declared.set.Algs.{Algs};
ghost use Rattle.digests.specs.Sets.{every_alg, is_in};
ghost use Rattle.digests.specs.Selection.{FedWanted, set_given, set_of};
ghost use Rattle.check_fit.specs.Fitting.{WantedBy};
ghost use Rattle.check_fit.specs.FileFitting.{facts_of};
ghost use Rattle.check_stream.specs.Hashing.{Lacks, HashesWanted};

use check_fit::{Policy, Refused, digest_alg, digests_from, wanted_by};
use cms_stream::Taker;
use cms_types::Signers;
use devices::Source;
use digests::{Algs, Wanted, WantedDigests};
use std::marker::{Brand, PhantomData};

/// The choice of algorithms by which a content is hashed as it passes, as a type.
pub(crate) trait Chosen {
    // The algorithms.
    ghost chosen: { Algs };
}

impl Chosen for Brand {
    ghost chosen = { every_alg };
}

/// Hashers of chosen algorithms, which take the octets of a content as they pass.
#[derive(Drop)]
pub(crate) struct Hashers<C: Chosen> {
    wanted: Wanted,
    of: PhantomData<C>,

    // They are of these algorithms.
    ghost set: { set_of wanted ≡ C.chosen },
}

impl<C: Chosen> Hashers<C> {
    /// Hashers that took nothing.
    pub(crate) fn new(algorithms: Algs) -> Hashers<C>
        requires { algorithms ≡ C.chosen }
        ensures { FedWanted result.wanted [] }
    {
        Hashers {
            wanted: Wanted::new(algorithms),
            of: PhantomData,
        }
    }

    /// The hashers themselves.
    pub(crate) fn wanted(self) -> Wanted
        ensures is { result ≡ self.wanted }
        ensures set { set_of result ≡ C.chosen }
    {
        let Hashers { wanted, of: _ } = self;
        wanted
    }
}

impl<C: Chosen> Taker for Hashers<C> {
    ghost use Rattle.digests.specs.Selection.{FedWanted};

    ghost held = { λ h m. FedWanted h.wanted m };

    fn take(&mut self, octets: &[u8]) {
        self.wanted.update(octets);
    }
}

// Whether the digest is among these by each algorithm that a signer names and the policy allows.
fn has_wanted(policy: Policy, signers: &Signers, digests: &WantedDigests) -> bool
    ensures { MatchBool result
        ((alg : Alg) → WantedBy policy signers.now alg → IsTrue (is_in alg (set_given digests.now)))
        (Lacks policy signers.now (set_given digests.now)) }
{
    let mut left = signers.again();
    while let Some((signer, others)) = left.next() {
        if let Some(alg) = policy.allowed(digest_alg(&signer)) {
            if digests.of(alg).is_none() {
                return false;
            }
        }
        left = others;
    }
    true
}

/// The digests of a content by each algorithm that one of these signers names and the policy allows: of what the
/// hashers were fed, or of the content that is handed in as a source, which is read once. `None` if a signer needs an
/// algorithm that the hashers don't have.
///
/// Errors: X1 if the source fails, and X5 if the content has more than 2^40 octets.
pub(crate) fn hash_wanted<S: Source>(
    policy: Policy,
    signers: &Signers,
    hashers: Wanted,
    content: &mut Option<S>,
) -> Option<Result<WantedDigests, Refused>>
    ensures { HashesWanted (facts_of S.tells S.rest S.failures) policy signers.now hashers
        content.old content.new result }
{
    let Some(source) = content else {
        let digests = hashers.finish();
        return if has_wanted(policy, signers, &digests) {
            Some(Ok(digests))
        } else {
            None
        };
    };
    match digests_from(wanted_by(policy, signers), source) {
        Ok(digests) => Some(Ok(digests)),
        Err(fault) => Some(Err(Refused::Device(fault))),
    }
}

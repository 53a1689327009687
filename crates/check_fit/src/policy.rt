ghost use Rattle.std.specs.Prelude.{◌≡◌, false};
ghost use Rattle.digests.specs.Sets.{is_in};
ghost use Rattle.digests.specs.declared.algorithm.Alg.{Alg};
ghost use Rattle.check_fit.specs.Fitting.{allowed, is_allowed, with_sha1};

use digests::{Alg, Algs};

/// What the user of a check allows.
#[derive(Clone, Copy, Debug, PartialEq, Eq)]
pub struct Policy {
    /// The algorithms that may be the digest algorithm of a signer or of an imprint.
    pub allowed: Algs,
}

// All algorithms but SHA-1.
fn all_but_sha1() -> Algs
    ensures { (alg : Alg) → is_in alg result ≡ is_allowed (with_sha1 false) alg }
{
    Algs::none()
        .with(Alg::Sha224)
        .with(Alg::Sha256)
        .with(Alg::Sha384)
        .with(Alg::Sha512)
        .with(Alg::Sha512_224)
        .with(Alg::Sha512_256)
}

// The same with SHA-1, if this says so.
fn with_sha1(sha1: bool) -> Algs
    ensures { (alg : Alg) → is_in alg result ≡ is_allowed (with_sha1 sha1) alg }
{
    let others = all_but_sha1();
    if sha1 { others.with(Alg::Sha1) } else { others }
}

impl Policy {
    /// The policy that allows each algorithm but SHA-1, and SHA-1 if `sha1` says so.
    pub fn with_sha1(sha1: bool) -> Policy
        ensures { result ≡ with_sha1 sha1 }
    {
        Policy {
            allowed: with_sha1(sha1),
        }
    }

    /// The algorithm, if there is one and it is allowed.
    pub fn allowed(self, named: Option<Alg>) -> Option<Alg>
        ensures { result ≡ allowed self named }
    {
        let alg = named?;
        if self.allowed.has(alg) {
            Some(alg)
        } else {
            None
        }
    }
}

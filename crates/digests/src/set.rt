ghost use Rattle.std.specs.Prelude.{◌≡◌, ◌≢◌, true, false};
ghost use Rattle.digests.specs.declared.algorithm.Alg.{Alg};
ghost use Rattle.digests.specs.Sets.{every_alg, is_in};

use crate::algorithm::Alg;

/// A set of algorithms.
#[derive(Clone, Copy, Debug, PartialEq, Eq)]
pub struct Algs {
    sha1: bool,
    sha224: bool,
    sha256: bool,
    sha384: bool,
    sha512: bool,
    sha512_224: bool,
    sha512_256: bool,
}

impl Algs {
    /// The empty set.
    pub fn none() -> Algs
        ensures { (alg : Alg) → is_in alg result ≡ false }
    {
        Algs {
            sha1: false,
            sha224: false,
            sha256: false,
            sha384: false,
            sha512: false,
            sha512_224: false,
            sha512_256: false,
        }
    }

    /// The set of all algorithms.
    pub(crate) fn all() -> Algs
        ensures { result ≡ every_alg }
    {
        Algs {
            sha1: true,
            sha224: true,
            sha256: true,
            sha384: true,
            sha512: true,
            sha512_224: true,
            sha512_256: true,
        }
    }

    /// This set with the algorithm added, which may be in it already.
    pub fn with(self, alg: Alg) -> Algs
        // The algorithm is in the new set.
        ensures added { is_in alg result ≡ true }
        // Each other one is in it exactly if it was before.
        ensures others { (other : Alg) → other ≢ alg → is_in other result ≡ is_in other self }
    {
        let mut set = self;
        match alg {
            Alg::Sha1 => set.sha1 = true,
            Alg::Sha224 => set.sha224 = true,
            Alg::Sha256 => set.sha256 = true,
            Alg::Sha384 => set.sha384 = true,
            Alg::Sha512 => set.sha512 = true,
            Alg::Sha512_224 => set.sha512_224 = true,
            Alg::Sha512_256 => set.sha512_256 = true,
        }
        set
    }

    /// Whether the algorithm is in the set.
    pub fn has(self, alg: Alg) -> bool
        ensures { result ≡ is_in alg self }
    {
        match alg {
            Alg::Sha1 => self.sha1,
            Alg::Sha224 => self.sha224,
            Alg::Sha256 => self.sha256,
            Alg::Sha384 => self.sha384,
            Alg::Sha512 => self.sha512,
            Alg::Sha512_224 => self.sha512_224,
            Alg::Sha512_256 => self.sha512_256,
        }
    }
}

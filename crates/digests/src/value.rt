ghost use Rattle.std.specs.Prelude.{◌≡◌, ◌↔◌, IsTrue, IsSome, IfSome, length};
ghost use Rattle.digests.specs.Algorithms.{length_of};
ghost use Rattle.digests.specs.Digests.{alg_of, octets_of};

use crate::algorithm::Alg;

/// A digest: an algorithm, and as many octets as its digests have.
#[derive(Clone, Copy, Debug, PartialEq, Eq)]
pub enum Digest {
    /// Of SHA-1.
    Sha1([u8; 20]),
    /// Of SHA-224.
    Sha224([u8; 28]),
    /// Of SHA-256.
    Sha256([u8; 32]),
    /// Of SHA-384.
    Sha384([u8; 48]),
    /// Of SHA-512.
    Sha512([u8; 64]),
    /// Of SHA-512/224.
    Sha512_224([u8; 28]),
    /// Of SHA-512/256.
    Sha512_256([u8; 32]),
}

impl Digest {
    /// The digest with these octets, exactly if their number is that of the algorithm.
    pub fn given(alg: Alg, octets: &[u8]) -> Option<Digest>
        // Returns a digest exactly if the number of octets is that of the algorithm.
        ensures some { IsSome result ↔ (length octets.now ≡ length_of alg) }
        // It is by this algorithm.
        ensures algorithm { IfSome result (λ d. alg_of d ≡ alg) }
        // It has these octets.
        ensures octets { IfSome result (λ d. octets_of d ≡ octets.now) }
    {
        match alg {
            Alg::Sha1 => Some(Digest::Sha1(octets.try_into().ok()?)),
            Alg::Sha224 => Some(Digest::Sha224(octets.try_into().ok()?)),
            Alg::Sha256 => Some(Digest::Sha256(octets.try_into().ok()?)),
            Alg::Sha384 => Some(Digest::Sha384(octets.try_into().ok()?)),
            Alg::Sha512 => Some(Digest::Sha512(octets.try_into().ok()?)),
            Alg::Sha512_224 => Some(Digest::Sha512_224(octets.try_into().ok()?)),
            Alg::Sha512_256 => Some(Digest::Sha512_256(octets.try_into().ok()?)),
        }
    }

    /// The octets.
    pub fn bytes(&self) -> &[u8]
        // Returns the octets of the digest.
        ensures octets { result.now ≡ octets_of self.now }
        // They are as many as its algorithm has.
        ensures count { length (octets_of self.now) ≡ length_of (alg_of self.now) }
    {
        match self {
            Digest::Sha1(octets) => octets,
            Digest::Sha224(octets) => octets,
            Digest::Sha256(octets) => octets,
            Digest::Sha384(octets) => octets,
            Digest::Sha512(octets) => octets,
            Digest::Sha512_224(octets) => octets,
            Digest::Sha512_256(octets) => octets,
        }
    }

    /// Whether these are exactly the octets of the digest.
    pub fn is(&self, octets: &[u8]) -> bool
        ensures { IsTrue result ↔ (octets_of self.now ≡ octets.now) }
    {
        self.bytes() == octets
    }

    /// The algorithm.
    pub fn alg(&self) -> Alg
        ensures { result ≡ alg_of self.now }
    {
        match self {
            Digest::Sha1(_) => Alg::Sha1,
            Digest::Sha224(_) => Alg::Sha224,
            Digest::Sha256(_) => Alg::Sha256,
            Digest::Sha384(_) => Alg::Sha384,
            Digest::Sha512(_) => Alg::Sha512,
            Digest::Sha512_224(_) => Alg::Sha512_224,
            Digest::Sha512_256(_) => Alg::Sha512_256,
        }
    }
}

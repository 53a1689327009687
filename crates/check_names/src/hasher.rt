//! Where the digests of certificates come from.
ghost use Rattle.std.specs.Prelude.{◌≡◌, ℕ};
ghost use Rattle.cert_types.specs.CertificateValue.{CertificateValue, encoding};
ghost use Rattle.digests.specs.Digests.{octets_of};
ghost use Rattle.digests.specs.Messages.{digest_of};

use cert_types::Certificate;
use digests::{Alg, Digest, digest};

/// What gives digests of certificates that have places, such as those of a list's entries. It may keep a digest by the
/// place of its certificate, so that a certificate that is named again and again is hashed once.
pub trait CertificateHasher {
    // What gives the certificates their places.
    ghost Placing: { Type 0 };

    ghost placed_by: { Self → Placing };

    // This place is that of the certificate.
    ghost is_place_of: { Placing → ℕ → CertificateValue → Type 0 };

    /// The digest of the certificate at this place by this algorithm.
    fn digest(&mut self, alg: Alg, place: usize, certificate: &Certificate<'_>) -> Digest
        requires { is_place_of (placed_by self.old) place certificate.now }

        // Its octets are the digest of the whole certificate.
        ensures digest { octets_of result ≡ digest_of alg (encoding certificate.now) }

        // The certificates keep their places.
        ensures same { placed_by self.new ≡ placed_by self.old };
}

/// Hashes a certificate each time, whatever its place, and keeps nothing.
#[derive(Clone, Copy, Debug)]
pub struct EachTime;

impl CertificateHasher for EachTime {
    ghost use Rattle.std.specs.Prelude.{⊤};

    ghost Placing = { ⊤ };

    ghost placed_by = { λ _. tt };

    ghost is_place_of = { λ _ _ _. ⊤ };

    fn digest(&mut self, alg: Alg, _number: usize, certificate: &Certificate<'_>) -> Digest {
        digest(alg, certificate.whole())
    }
}

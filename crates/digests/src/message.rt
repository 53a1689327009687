ghost use Rattle.std.specs.Prelude.{◌≡◌};
ghost use Rattle.digests.specs.Digests.{alg_of, octets_of};
ghost use Rattle.digests.specs.Messages.{digest_of};

use crate::algorithm::Alg;
use crate::long::{digest_384, digest_512, digest_512_224, digest_512_256};
use crate::short::{digest_224, digest_256};
use crate::value::Digest;
use sha1::Sha1;

/// The digest of a message that is completely in memory.
#[tactic(auto, unfolding(crate::specs::Messages::digest_of))]
pub fn digest(alg: Alg, message: &[u8]) -> Digest
    // Returns a digest by this algorithm.
    ensures algorithm { alg_of result ≡ alg }
    // Its octets are the digest of the message.
    ensures octets { octets_of result ≡ digest_of alg message.now }
{
    match alg {
        Alg::Sha1 => Digest::Sha1(Sha1::digest(message)),
        Alg::Sha224 => Digest::Sha224(digest_224(message)),
        Alg::Sha256 => Digest::Sha256(digest_256(message)),
        Alg::Sha384 => Digest::Sha384(digest_384(message)),
        Alg::Sha512 => Digest::Sha512(digest_512(message)),
        Alg::Sha512_224 => Digest::Sha512_224(digest_512_224(message)),
        Alg::Sha512_256 => Digest::Sha512_256(digest_512_256(message)),
    }
}

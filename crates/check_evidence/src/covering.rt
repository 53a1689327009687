ghost use Rattle.std.specs.Prelude.{◌≡◌, ◌≢◌, ◌++◌, ℕ, List, []};
ghost use Rattle.der_core.specs.Element.{el};
ghost use Rattle.der_core.specs.Values.{HasLength};
ghost use Rattle.digests.specs.Digests.{alg_of, octets_of};
ghost use Rattle.digests.specs.Messages.{digest_of};
ghost use Rattle.evidence_types.specs.StampValue.{StampValue};
ghost use Rattle.evidence_types.specs.EvidenceValue.{chains_parts};
ghost use Rattle.check_evidence.specs.Covering.{covered_of};

use crate::hashing::finish;
use der_core::header;
use der_core::tags::SEQUENCE;
use digests::{Alg, Algs, Digest, Wanted, digest};
use evidence_types::ArchiveTimeStamp;

/// The digest of two pieces, one after the other. It allocates nothing.
pub fn digest_of_both(alg: Alg, first: &[u8], then: &[u8]) -> Digest
    // It is by this algorithm.
    ensures algorithm { alg_of result ≡ alg }
    // Its octets are the digest of both.
    ensures octets { octets_of result ≡ digest_of alg (first.now ++ then.now) }
{
    let mut hashers = Wanted::new(Algs::none().with(alg));
    hashers.update(first);
    hashers.update(then);
    finish(alg, hashers)
}

/// The hash value of the ArchiveTimeStampSequence of chains, whose octets these are, one after the other (RFC 4998 5.2,
/// step 3). It allocates nothing.
pub fn digest_of_chains(alg: Alg, chains: &[u8]) -> Digest
    requires { HasLength chains.now }
    // It is by this algorithm.
    ensures algorithm { alg_of result ≡ alg }
    // Its octets are the digest of the SEQUENCE of these contents.
    ensures octets { octets_of result ≡ digest_of alg (el 0x30 chains.now) }
{
    let Ok(header) = header(SEQUENCE, chains.len() as u64) else {
        unreachable!();
    };
    digest_of_both(alg, header.bytes(), chains)
}

/// The value that the first archive time-stamp of a later chain must cover for a data object: the hash value of the
/// data object's and that of the chains before, in this order (RFC 4998 5.2, steps 2 to 4). It allocates nothing.
pub fn covered_later(alg: Alg, data_object: &Digest, chains: &Digest) -> Digest
    // It is by this algorithm.
    ensures algorithm { alg_of result ≡ alg }
    // Its octets are the digest of both, one after the other.
    ensures octets { octets_of result ≡ digest_of alg (octets_of data_object.now ++ octets_of chains.now) }
    // If they are digests of a data object and of the sequence of chains, it is what must be covered.
    ensures covered { (earlier : List (List StampValue)) (octets : List ℕ) → earlier ≢ []
        → octets_of data_object.now ≡ digest_of alg octets
        → octets_of chains.now ≡ digest_of alg (el 0x30 (chains_parts earlier))
        → octets_of result ≡ covered_of alg earlier octets }
{
    digest_of_both(alg, data_object.bytes(), chains.bytes())
}

/// The value that an archive time-stamp must cover that renews this one in its chain: the hash value of its time-stamp,
/// the whole element (RFC 4998 5.2). It allocates nothing.
pub fn covered_after(alg: Alg, before: &ArchiveTimeStamp) -> Digest
    // It is by this algorithm.
    ensures algorithm { alg_of result ≡ alg }
    // Its octets are the digest of the whole time-stamp.
    ensures octets { octets_of result ≡ digest_of alg before.now.stamp }
{
    digest(alg, before.stamp())
}

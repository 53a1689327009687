//! The digests of certificates of trusted entries that were computed last.
ghost use Rattle.std.specs.Prelude.{◌≡◌, List, IfSome};
ghost use Rattle.digests.specs.Digests.{alg_of};
ghost use Rattle.trust_lists.specs.Entries.{EntryValue};
ghost use Rattle.check_verdict.specs.KeptDigests.{IsDigestAt, AreDigestsOf};

use crate::trusted::Trusted;
use cert_types::Certificate;
use check_names::CertificateHasher;
use digests::{Alg, Digest, digest};
use std::marker::Model;

/// How many digests are kept.
const SLOTS: usize = 8;

// A digest of the certificate of the entry at this place.
#[derive(Clone, Copy, Debug)]
struct KeptDigest {
    place: usize,
    digest: Digest,
}

/// Digests of certificates of entries of a trust list that were computed last, at most eight, each kept by the place
/// of its entry: a certificate that is named again and again is hashed once.
///
/// They belong to one list: contracts say of which entries they are the digests (`AreDigestsOf`), and a `Checker` takes
/// no others.
#[derive(Clone, Copy, Debug)]
pub struct KeptDigests {
    slots: [Option<KeptDigest>; SLOTS],
    // The slot that is taken next, or as many as there are for the first.
    next: usize,
}

impl KeptDigests {
    /// No digest.
    pub fn none() -> KeptDigests
        // So it is of any list.
        ensures { (entries : List EntryValue) → AreDigestsOf entries result }
    {
        KeptDigests {
            slots: [None; SLOTS],
            next: 0,
        }
    }
}

/// A trust list, and the digests that are kept of it. What is kept changes no answer.
///
/// Contracts see the entries of the list, in its order.
#[derive(Debug, Drop)]
pub(crate) struct Hashed<'l> {
    trust: Trusted<'l>,
    kept: KeptDigests,
}

impl<'l> Model for Hashed<'l> {
    ghost use Rattle.std.specs.Prelude.{List};
    ghost use Rattle.trust_lists.specs.Entries.{EntryValue};
    ghost use Rattle.check_verdict.specs.KeptDigests.{AreDigestsOf};

    ghost Value = { List EntryValue };

    ghost view = { λ h. h.trust };

    ghost invariant = { λ h. AreDigestsOf h.trust h.kept };
}

impl<'l> Hashed<'l> {
    /// The list, with these digests of it.
    pub fn of(trust: Trusted<'l>, kept: KeptDigests) -> Hashed<'l>
        requires { AreDigestsOf trust kept }
        ensures { result ≡ trust.entry }
    {
        Hashed { trust, kept }
    }

    /// The list.
    pub fn trust(&self) -> Trusted<'l>
        ensures { result ≡ self.now }
    {
        self.trust.again()
    }

    /// The digests that are kept now.
    pub fn kept(&self) -> KeptDigests
        ensures { AreDigestsOf self.now result }
    {
        self.kept
    }

    // The digest of the certificate of the entry at this place by this algorithm, if it is kept.
    fn found(&self, alg: Alg, place: usize) -> Option<Digest>
        ensures digest { IfSome result (IsDigestAt self.now place) }
        ensures by { IfSome result (λ d. alg_of d ≡ alg) }
    {
        for slot in &self.kept.slots {
            if let Some(kept) = slot
                && kept.place == place
                && kept.digest.alg() == alg
            {
                return Some(kept.digest);
            }
        }
        None
    }

    // Keeps a digest of the certificate of the entry at this place, instead of the one that was kept first.
    fn keep(&mut self, place: usize, digest: Digest)
        requires { IsDigestAt self.old place digest }
        ensures { self.new ≡ self.old }
    {
        let at = self.kept.next % SLOTS;
        self.kept.slots[at] = Some(KeptDigest { place, digest });
        self.kept.next = at + 1;
    }
}

impl<'l> CertificateHasher for Hashed<'l> {
    ghost use Rattle.std.specs.Prelude.{List};
    ghost use Rattle.trust_lists.specs.Entries.{EntryValue};
    ghost use Rattle.check_verdict.specs.KeptDigests.{IsCertificateAt};

    ghost Placing = { List EntryValue };

    ghost placed_by = { λ h. h };

    ghost is_place_of = { IsCertificateAt };

    fn digest(&mut self, alg: Alg, place: usize, certificate: &Certificate<'_>) -> Digest {
        if let Some(digest) = self.found(alg, place) {
            return digest;
        }
        let digest = digest(alg, certificate.whole());
        self.keep(place, digest);
        digest
    }
}

ghost use Rattle.std.specs.Prelude.{◌≡◌, ◌<◌, ◌^◌, ℕ, List, [], ◌++◌, length, Err};
ghost use Rattle.digests.specs.Digests.{alg_of, octets_of};
ghost use Rattle.digests.specs.Hashers.{AreOf, Fed};
ghost use Rattle.digests.specs.Messages.{digest_of};
ghost use Rattle.digests.specs.Reading.{CountsReads, Feeds, LeavesOff};

use crate::algorithm::Alg;
use crate::feeding::ContentFault;
use crate::selection::Wanted;
use crate::set::Algs;
use crate::value::Digest;
use devices::Source;

/// Hashers of all algorithms, all fed the same message. `Fed all m`: `m` is everything they were fed, joined.
#[derive(Drop)]
pub struct All {
    wanted: Wanted,
}

/// The digests of one message by all algorithms.
#[derive(Clone, Copy, Debug, PartialEq, Eq)]
pub struct Digests {
    sha1: [u8; 20],
    sha224: [u8; 28],
    sha256: [u8; 32],
    sha384: [u8; 48],
    sha512: [u8; 64],
    sha512_224: [u8; 28],
    sha512_256: [u8; 32],
}

impl All {
    /// Hashers that have been fed nothing.
    pub fn new() -> All
        ensures { Fed result [] }
    {
        All {
            wanted: Wanted::new(Algs::all()),
        }
    }

    /// Feeds the next piece of the message, of any length.
    pub fn update(&mut self, piece: &[u8])
        ensures { (m : List ℕ) → Fed self.old m → Fed self.new (m ++ piece.now) }
    {
        self.wanted.update(piece);
    }

    /// Feeds what the source gives until its end, and returns how many octets that was.
    ///
    /// Errors: `ReadFailed` if the source failed; `ContentTooLong` if it gave more than 2^40 octets. In both cases the
    /// octets that it gave before were fed.
    pub fn read_from<S: Source>(&mut self, source: &mut S) -> Result<u64, ContentFault>
        // The source's count of failures rose exactly when reading failed.
        ensures count { CountsReads result (S.failures source.old) (S.failures source.new) }
        // What it gave was fed. If `tells` holds of the source, that is the front of what was to come: all of it if
        // there is no error, and all but what is still to come if the source is too long.
        ensures given { (given : List ℕ)
            × Feeds Fed self.old self.new (S.tells source.old) (S.rest source.old) given
            × LeavesOff result (S.tells source.old) (S.rest source.old) (S.rest source.new) given }
        // If `tells` holds of the source, it is too long only if more than 2^40 octets were to come.
        ensures too_long { result ≡ Err ContentFault.ContentTooLong → S.tells source.old
            → 2 ^ 40 < length (S.rest source.old) }
    {
        self.wanted.read_from(source)
    }

    /// The digests of what was fed.
    pub fn finish(self) -> Digests
        ensures { (m : List ℕ) → Fed self m → AreOf result m }
    {
        let found = self.wanted.finish();
        // None is missing, since all are wanted.
        Digests {
            sha1: found.sha1.unwrap_or([0; 20]),
            sha224: found.sha224.unwrap_or([0; 28]),
            sha256: found.sha256.unwrap_or([0; 32]),
            sha384: found.sha384.unwrap_or([0; 48]),
            sha512: found.sha512.unwrap_or([0; 64]),
            sha512_224: found.sha512_224.unwrap_or([0; 28]),
            sha512_256: found.sha512_256.unwrap_or([0; 32]),
        }
    }
}

impl Digests {
    /// The digest by this algorithm.
    pub fn of(&self, alg: Alg) -> Digest
        // Returns a digest by this algorithm.
        ensures algorithm { alg_of result ≡ alg }
        // If these are the digests of a message, it is the digest of that message.
        ensures octets { (m : List ℕ) → AreOf self.now m → octets_of result ≡ digest_of alg m }
    {
        match alg {
            Alg::Sha1 => Digest::Sha1(self.sha1),
            Alg::Sha224 => Digest::Sha224(self.sha224),
            Alg::Sha256 => Digest::Sha256(self.sha256),
            Alg::Sha384 => Digest::Sha384(self.sha384),
            Alg::Sha512 => Digest::Sha512(self.sha512),
            Alg::Sha512_224 => Digest::Sha512_224(self.sha512_224),
            Alg::Sha512_256 => Digest::Sha512_256(self.sha512_256),
        }
    }
}

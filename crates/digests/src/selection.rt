ghost use Rattle.std.specs.Prelude.{◌≡◌, ◌<◌, ◌^◌, ℕ, List, [], ◌++◌, length, is_some, IfSome, Err};
ghost use Rattle.sha1.specs.Sha1.{Holds, sha1};
ghost use Rattle.digests.specs.Digests.{alg_of, octets_of};
ghost use Rattle.digests.specs.Messages.{digest_of};
ghost use Rattle.digests.specs.Selection.{AreOfWanted, FedWanted, set_given, set_of};
ghost use Rattle.digests.specs.Sets.{is_in};
ghost use Rattle.digests.specs.Reading.{CountsReads, Feeds, LeavesOff};

use crate::algorithm::Alg;
use crate::feeding::{ContentFault, Feed, feed_from};
use crate::long::{begin_long, end_384, end_512, end_512_224, end_512_256, end_long, feed_long};
use crate::set::Algs;
use crate::short::{begin_short, end_224, end_256, end_short, feed_short};
use crate::value::Digest;
use devices::Source;
use sha1::Sha1;
use sha2_blocks::{LongHasher, ShortHasher};

/// Hashers of the wanted algorithms only, all fed the same message. `FedWanted wanted m`: `m` is everything they were
/// fed, joined. The algorithms are `set_of wanted`. One that is not wanted has no hash value, so it is fed nothing.
/// Those whose words have 32 bits have one hasher, with a hash value of each of them that is wanted, and so have those
/// whose words have 64 bits.
#[derive(Drop)]
pub struct Wanted {
    sha1: Option<Sha1>,
    short: Option<ShortHasher>,
    long: Option<LongHasher>,
}

/// The digests of one message by the wanted algorithms.
#[derive(Clone, Copy, Debug, PartialEq, Eq)]
pub struct WantedDigests {
    pub(crate) sha1: Option<[u8; 20]>,
    pub(crate) sha224: Option<[u8; 28]>,
    pub(crate) sha256: Option<[u8; 32]>,
    pub(crate) sha384: Option<[u8; 48]>,
    pub(crate) sha512: Option<[u8; 64]>,
    pub(crate) sha512_224: Option<[u8; 28]>,
    pub(crate) sha512_256: Option<[u8; 32]>,
}

/// A hasher of SHA-1, if it is wanted.
fn begin_sha1(is_wanted: bool) -> Option<Sha1>
    ensures there { is_some result ≡ is_wanted }
    ensures fed { IfSome result (λ h. Holds h []) }
{
    if is_wanted { Some(Sha1::new()) } else { None }
}

/// Feeds the hasher of SHA-1, if it is present.
fn feed_sha1(hasher: &mut Option<Sha1>, piece: &[u8])
    ensures there { is_some hasher.new ≡ is_some hasher.old }
    ensures fed { (m : List ℕ) → IfSome hasher.old (λ h. Holds h m)
        → IfSome hasher.new (λ h. Holds h (m ++ piece.now)) }
{
    if let Some(hasher) = hasher {
        hasher.update(piece);
    }
}

/// The digest by SHA-1, if its hasher is present.
fn end_sha1(hasher: Option<Sha1>) -> Option<[u8; 20]>
    ensures there { is_some result ≡ is_some hasher }
    ensures digest { (m : List ℕ) → IfSome hasher (λ h. Holds h m) → IfSome result (λ d. d ≡ sha1 m) }
{
    match hasher {
        Some(hasher) => Some(hasher.finalize()),
        None => None,
    }
}

impl Wanted {
    /// Hashers of the algorithms of the set, which have been fed nothing.
    pub fn new(set: Algs) -> Wanted
        // The hashers are of this set.
        ensures set { set_of result ≡ set }
        // They were fed nothing.
        ensures fed { FedWanted result [] }
    {
        Wanted {
            sha1: begin_sha1(set.has(Alg::Sha1)),
            short: begin_short(set.has(Alg::Sha224), set.has(Alg::Sha256)),
            long: begin_long(
                set.has(Alg::Sha384),
                set.has(Alg::Sha512),
                set.has(Alg::Sha512_224),
                set.has(Alg::Sha512_256),
            ),
        }
    }

    /// Feeds the next piece of the message, of any length.
    pub fn update(&mut self, piece: &[u8])
        // The set does not change.
        ensures set { set_of self.new ≡ set_of self.old }
        // The piece is fed after what was fed before.
        ensures fed { (m : List ℕ) → FedWanted self.old m → FedWanted self.new (m ++ piece.now) }
    {
        feed_sha1(&mut self.sha1, piece);
        feed_short(&mut self.short, piece);
        feed_long(&mut self.long, piece);
    }

    /// Feeds what the source gives until its end, and returns how many octets that was.
    ///
    /// Errors: as `All::read_from`.
    pub fn read_from<S: Source>(&mut self, source: &mut S) -> Result<u64, ContentFault>
        // Raises the source's count of failures exactly if reading failed.
        ensures count { CountsReads result (S.failures source.old) (S.failures source.new) }
        // Feeds what it gave: if `tells` holds, the front of what was to come, and all of it if there is no error.
        ensures given { (given : List ℕ)
            × Feeds FedWanted self.old self.new (S.tells source.old) (S.rest source.old) given
            × LeavesOff result (S.tells source.old) (S.rest source.old) (S.rest source.new) given }
        // `ContentTooLong` is returned, if `tells` holds, only if more than 2^40 octets were to come.
        ensures too_long { result ≡ Err ContentFault.ContentTooLong → S.tells source.old
            → 2 ^ 40 < length (S.rest source.old) }
        // The set does not change.
        ensures set { set_of self.new ≡ set_of self.old }
    {
        feed_from(self, source)
    }

    /// The digests of what was fed.
    #[tactic(auto, unfolding(crate::specs::Messages::digest_of))]
    pub fn finish(self) -> WantedDigests
        // The digests are by the algorithms of the set.
        ensures set { set_given result ≡ set_of self }
        // Each digest is that of all that was fed.
        ensures digests { (m : List ℕ) → FedWanted self m → AreOfWanted result m }
    {
        let Wanted { sha1, short, long } = self;
        let short = end_short(short);
        let long = end_long(long);
        WantedDigests {
            sha1: end_sha1(sha1),
            sha224: end_224(short.sha224),
            sha256: end_256(short.sha256),
            sha384: end_384(long.sha384),
            sha512: end_512(long.sha512),
            sha512_224: end_512_224(long.sha512_224),
            sha512_256: end_512_256(long.sha512_256),
        }
    }
}

impl Feed for Wanted {
    ghost use Rattle.digests.specs.Selection.{FedWanted, set_of};

    ghost fed = { FedWanted };

    ghost set = { set_of };

    fn feed(&mut self, piece: &[u8]) {
        self.update(piece);
    }
}

impl WantedDigests {
    /// The digest by this algorithm, exactly if it is wanted.
    pub fn of(&self, alg: Alg) -> Option<Digest>
        // Returns a digest exactly if the algorithm is in the set.
        ensures some { is_some result ≡ is_in alg (set_given self.now) }
        // It is by this algorithm.
        ensures algorithm { IfSome result (λ d. alg_of d ≡ alg) }
        // If these are the digests of a message, it is the digest of that message.
        ensures octets { (m : List ℕ) → AreOfWanted self.now m
            → IfSome result (λ d. octets_of d ≡ digest_of alg m) }
    {
        match alg {
            Alg::Sha1 => Some(Digest::Sha1(self.sha1?)),
            Alg::Sha224 => Some(Digest::Sha224(self.sha224?)),
            Alg::Sha256 => Some(Digest::Sha256(self.sha256?)),
            Alg::Sha384 => Some(Digest::Sha384(self.sha384?)),
            Alg::Sha512 => Some(Digest::Sha512(self.sha512?)),
            Alg::Sha512_224 => Some(Digest::Sha512_224(self.sha512_224?)),
            Alg::Sha512_256 => Some(Digest::Sha512_256(self.sha512_256?)),
        }
    }
}

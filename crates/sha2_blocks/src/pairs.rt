//! The working variables of two hash values, which take the rounds of a block at once: the lanes of a vector are the
//! same working variable of both.
ghost use Rattle.std.specs.Prelude.{◌≡◌};
ghost use Rattle.sha2.specs.Sha256.{ch as short_ch, maj as short_maj};
ghost use Rattle.sha2.specs.Sha512.{ch as long_ch, maj as long_maj};
ghost use Rattle.sha2_blocks.specs.Pairs.{low_words, two_lanes};

use std::simd::u64x2;

/// The working variables of two hash values.
#[derive(Clone, Copy)]
pub(crate) struct Pair {
    pub(crate) a: u64x2,
    pub(crate) b: u64x2,
    pub(crate) c: u64x2,
    pub(crate) d: u64x2,
    pub(crate) e: u64x2,
    pub(crate) f: u64x2,
    pub(crate) g: u64x2,
    pub(crate) h: u64x2,
}

/// Ch of each lane (FIPS 180-4, 4.1.3), and so of the words in the low halves (4.1.2).
#[inline(always)]
pub(crate) fn choose(x: u64x2, y: u64x2, z: u64x2) -> u64x2
    ensures long { result ≡ two_lanes long_ch x y z }
    ensures short { low_words result ≡ two_lanes short_ch (low_words x) (low_words y) (low_words z) }
{
    z ^ (x & (y ^ z))
}

/// Maj of each lane (4.1.3), and so of the words in the low halves (4.1.2). `x ^ y` of a round is `y ^ z` of the next.
#[inline(always)]
pub(crate) fn majority(x: u64x2, y: u64x2, z: u64x2) -> u64x2
    ensures long { result ≡ two_lanes long_maj x y z }
    ensures short { low_words result ≡ two_lanes short_maj (low_words x) (low_words y) (low_words z) }
{
    y ^ ((x ^ y) & (y ^ z))
}

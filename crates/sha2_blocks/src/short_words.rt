//! The schedule of a block of SHA-224 or SHA-256 (FIPS 180-4, 6.2.2, step 1), four words at a time: each lane of a
//! vector is a word.
ghost use Rattle.std.specs.Prelude.{◌≡◌, ℕ, ◌+◌, ◌≤◌, List, [], ◌∷◌, length, map};
ghost use Rattle.std.specs.Simd.Lanes.{chunk, put_chunk};
ghost use Rattle.sha2.specs.Sha256.{schedule, small_sigma0, small_sigma1, word_at};
ghost use Rattle.sha2_blocks.specs.ShortSteps.{AreSixteen, four_words};
ghost use Rattle.sha2_blocks.specs.Sums.{AreShortSums};

use std::simd::u32x4;

/// K 0 to K 63 (4.2.2).
const ROUND_CONSTANTS: [u32; 64] = [
    0x428a2f98, 0x71374491, 0xb5c0fbcf, 0xe9b5dba5, 0x3956c25b, 0x59f111f1, 0x923f82a4, 0xab1c5ed5,
    0xd807aa98, 0x12835b01, 0x243185be, 0x550c7dc3, 0x72be5d74, 0x80deb1fe, 0x9bdc06a7, 0xc19bf174,
    0xe49b69c1, 0xefbe4786, 0x0fc19dc6, 0x240ca1cc, 0x2de92c6f, 0x4a7484aa, 0x5cb0a9dc, 0x76f988da,
    0x983e5152, 0xa831c66d, 0xb00327c8, 0xbf597fc7, 0xc6e00bf3, 0xd5a79147, 0x06ca6351, 0x14292967,
    0x27b70a85, 0x2e1b2138, 0x4d2c6dfc, 0x53380d13, 0x650a7354, 0x766a0abb, 0x81c2c92e, 0x92722c85,
    0xa2bfe8a1, 0xa81a664b, 0xc24b8b70, 0xc76c51a3, 0xd192e819, 0xd6990624, 0xf40e3585, 0x106aa070,
    0x19a4c116, 0x1e376c08, 0x2748774c, 0x34b0bcb5, 0x391c0cb3, 0x4ed8aa4a, 0x5b9cca4f, 0x682e6ff3,
    0x748f82ee, 0x78a5636f, 0x84c87814, 0x8cc70208, 0x90befffa, 0xa4506ceb, 0xbef9a3f7, 0xc67178f2,
];

/// The lower case sigma 0 of each lane (4.1.2).
#[inline(always)]
fn lower_sigma0(x: u32x4) -> u32x4
    ensures { result ≡ map small_sigma0 x }
{
    ((x >> 7) | (x << 25)) ^ ((x >> 18) | (x << 14)) ^ (x >> 3)
}

/// The lower case sigma 1 of each lane (4.1.2).
#[inline(always)]
fn lower_sigma1(x: u32x4) -> u32x4
    ensures { result ≡ map small_sigma1 x }
{
    ((x >> 17) | (x << 15)) ^ ((x >> 19) | (x << 13)) ^ (x >> 10)
}

/// The four words after sixteen. The lower case sigma 1 of the first two is added into the last two, so these come
/// last.
#[inline(always)]
fn next_words(w0: u32x4, w1: u32x4, w2: u32x4, w3: u32x4) -> u32x4
    ensures { (b : List ℕ) (t : ℕ) → t + 20 ≤ 64
        → w0 ≡ four_words (schedule b 48) t → w1 ≡ four_words (schedule b 48) (t + 4)
        → w2 ≡ four_words (schedule b 48) (t + 8) → w3 ≡ four_words (schedule b 48) (t + 12)
        → result ≡ four_words (schedule b 48) (t + 16) }
{
    let zero = u32x4::splat(0);
    let known = w0 + w2.shuffle(w3, [1, 2, 3, 4]) + lower_sigma0(w0.shuffle(w1, [1, 2, 3, 4]));
    let first = known + lower_sigma1(w3.shuffle(zero, [2, 3, 4, 4]));
    first + lower_sigma1(first.shuffle(zero, [4, 4, 0, 1]))
}

/// The word at an octet of a block (5.2.1).
fn word(block: &[u8], at: usize) -> u32
    requires { at + 4 ≤ length block.now }
    ensures { result ≡ word_at block.now at }
{
    u32::from_be_bytes([block[at], block[at + 1], block[at + 2], block[at + 3]])
}

/// The four words from an octet of a block on.
#[inline(always)]
fn first_words(block: &[u8], at: usize) -> u32x4
    requires { at + 16 ≤ length block.now }
    ensures { result ≡ word_at block.now at ∷ word_at block.now (at + 4) ∷ word_at block.now (at + 8)
        ∷ word_at block.now (at + 12) ∷ [] }
{
    u32x4::from_array([
        word(block, at),
        word(block, at + 4),
        word(block, at + 8),
        word(block, at + 12),
    ])
}

/// The four words of a table from place `at` on.
#[inline(always)]
fn load_four(table: &[u32], at: usize) -> u32x4
    requires { at + 4 ≤ length table.now }
    ensures { result ≡ chunk at 4 table.now }
{
    u32x4::from_slice(&table[at..])
}

/// Puts four words into a table, from place `at` on.
#[inline(always)]
fn store_four(table: &mut [u32], at: usize, words: u32x4)
    requires { at + 4 ≤ length table.old }
    ensures { table.new ≡ put_chunk at table.old words }
{
    words.copy_to_slice(&mut table[at..]);
}

/// Adds the round constants from `t` on to four words, and keeps the sums at the same places.
#[inline(always)]
fn put_sums(sums: &mut [u32; 64], t: usize, words: u32x4)
    requires { t + 4 ≤ 64 }
    ensures { (ws : List ℕ) → words ≡ four_words ws t → AreShortSums sums.old ws t → AreShortSums sums.new ws (t + 4) }
{
    store_four(sums, t, load_four(&ROUND_CONSTANTS, t) + words);
}

/// Sixteen words of a schedule.
#[derive(Clone, Copy)]
pub(crate) struct Sixteen {
    w0: u32x4,
    w1: u32x4,
    w2: u32x4,
    w3: u32x4,
}

/// The first sixteen words of a block.
#[inline(always)]
pub(crate) fn sixteen_first(block: &[u8]) -> Sixteen
    requires { length block.now ≡ 64 }
    ensures { AreSixteen result (schedule block.now 48) 0 }
{
    Sixteen {
        w0: first_words(block, 0),
        w1: first_words(block, 16),
        w2: first_words(block, 32),
        w3: first_words(block, 48),
    }
}

/// The sums of the first sixteen words.
#[inline(always)]
pub(crate) fn put_sixteen(w: &Sixteen, sums: &mut [u32; 64])
    ensures { (ws : List ℕ) → AreSixteen w.now ws 0 → AreShortSums sums.new ws 16 }
{
    put_sums(sums, 0, w.w0);
    put_sums(sums, 4, w.w1);
    put_sums(sums, 8, w.w2);
    put_sums(sums, 12, w.w3);
}

/// From the sixteen words from `t` on to those four places later, with the sums of the four new ones.
#[inline(always)]
pub(crate) fn four_more(w: Sixteen, sums: &mut [u32; 64], t: usize) -> Sixteen
    requires { t + 20 ≤ 64 }
    ensures words { (b : List ℕ) → AreSixteen w (schedule b 48) t → AreSixteen result (schedule b 48) (t + 4) }
    ensures sums { (b : List ℕ) → AreSixteen w (schedule b 48) t → AreShortSums sums.old (schedule b 48) (t + 16)
        → AreShortSums sums.new (schedule b 48) (t + 20) }
{
    let next = next_words(w.w0, w.w1, w.w2, w.w3);
    put_sums(sums, t + 16, next);
    Sixteen {
        w0: w.w1,
        w1: w.w2,
        w2: w.w3,
        w3: next,
    }
}

/// The sums of all words of a block and the round constants.
pub(crate) fn put_schedule(sums: &mut [u32; 64], block: &[u8])
    requires { length block.now ≡ 64 }
    ensures { AreShortSums sums.new (schedule block.now 48) 64 }
{
    let mut w = sixteen_first(block);
    put_sixteen(&w, sums);
    // Sixteen words a turn, so that each vector is where it was.
    'turns: for turn in 0..3usize {
        w = four_more(w, sums, 16 * turn);
        w = four_more(w, sums, 16 * turn + 4);
        w = four_more(w, sums, 16 * turn + 8);
        w = four_more(w, sums, 16 * turn + 12);
    }
}

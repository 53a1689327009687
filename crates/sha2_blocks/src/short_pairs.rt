//! The rounds of a hash value of SHA-224 and of one of SHA-256 over a block at once (FIPS 180-4, 6.2.2, steps 2 to 4):
//! the lanes of a vector are the same working variable of both. A lane of 64 bits holds its word twice, in its low and
//! in its high half, so that the low half of a shift is the word rotated.
ghost use Rattle.std.specs.Prelude.{◌≡◌, ℕ, ◌+◌, ◌/◌, ◌%◌, ◌≤◌, List, [], ◌∷◌, length, map};
ghost use Rattle.sha2.specs.Sha256.{add32, add_state, big_sigma0, big_sigma1, compress, hash_after, round, rounds};
ghost use Rattle.sha2.specs.Sha256.{schedule};
ghost use Rattle.sha2_blocks.specs.Pairs.{AreBoth, HoldTwice, low_words};
ghost use Rattle.sha2_blocks.specs.Sums.{AreShortSums};

use crate::pairs::{Pair, choose, majority};
use crate::short_rounds::add_variables;
use crate::short_words::put_schedule;
use std::simd::u64x2;

/// How many octets a block has.
const BLOCK: usize = 64;

/// The low word of each lane, twice.
#[inline(always)]
fn doubled(x: u64x2) -> u64x2
    ensures { HoldTwice result (low_words x) }
{
    (x & u64x2::splat(0xffff_ffff)) | (x << 32)
}

/// The upper case sigma 0 of each word (4.1.2).
#[inline(always)]
fn upper_sigma0(x: u64x2) -> u64x2
    ensures { (words : List ℕ) → HoldTwice x words → low_words result ≡ map big_sigma0 words }
{
    (x >> 2) ^ (x >> 13) ^ (x >> 22)
}

/// The upper case sigma 1 of each word (4.1.2).
#[inline(always)]
fn upper_sigma1(x: u64x2) -> u64x2
    ensures { (words : List ℕ) → HoldTwice x words → low_words result ≡ map big_sigma1 words }
{
    (x >> 6) ^ (x >> 11) ^ (x >> 25)
}

/// A word of each hash value.
#[inline(always)]
fn both(first: u32, second: u32) -> u64x2
    ensures { HoldTwice result (first ∷ second ∷ []) }
{
    doubled(u64x2::from_array([first as u64, second as u64]))
}

/// The working variables before the first round: the two hash values.
#[inline(always)]
fn begin_pair(first: &[u32; 8], second: &[u32; 8]) -> Pair
    ensures { AreBoth HoldTwice result first.now second.now }
{
    Pair {
        a: both(first[0], second[0]),
        b: both(first[1], second[1]),
        c: both(first[2], second[2]),
        d: both(first[3], second[3]),
        e: both(first[4], second[4]),
        f: both(first[5], second[5]),
        g: both(first[6], second[6]),
        h: both(first[7], second[7]),
    }
}

/// One round of both, with the sum of its constant and its word. What a sum carries out of a word is in the high half,
/// which `doubled` drops.
#[inline(always)]
fn one_round(v: Pair, sum: u32) -> Pair
    ensures { (x y : List ℕ) (k w : ℕ) → sum ≡ add32 k w → AreBoth HoldTwice v x y
        → AreBoth HoldTwice result (round x k w) (round y k w) }
{
    let temp1 = v.h + upper_sigma1(v.e) + choose(v.e, v.f, v.g) + u64x2::splat(sum as u64);
    let temp2 = upper_sigma0(v.a) + majority(v.a, v.b, v.c);
    Pair {
        a: doubled(temp1 + temp2),
        b: v.a,
        c: v.b,
        d: v.c,
        e: doubled(v.d + temp1),
        f: v.e,
        g: v.f,
        h: v.g,
    }
}

/// The four rounds from `t` on, of both.
#[inline(always)]
fn four_rounds(v: Pair, sums: &[u32; 64], t: usize) -> Pair
    requires { t + 4 ≤ 64 }
    ensures { (g h ws : List ℕ) → AreShortSums sums.now ws (t + 4) → AreBoth HoldTwice v (rounds g ws t) (rounds h ws t)
        → AreBoth HoldTwice result (rounds g ws (t + 4)) (rounds h ws (t + 4)) }
{
    let v = one_round(v, sums[t]);
    let v = one_round(v, sums[t + 1]);
    let v = one_round(v, sums[t + 2]);
    one_round(v, sums[t + 3])
}

/// The low words of two lanes.
#[inline(always)]
fn words_of(lanes: u64x2) -> [u32; 2]
    ensures { result ≡ low_words lanes }
{
    let [first, second] = lanes.to_array();
    [(first & 0xffff_ffff) as u32, (second & 0xffff_ffff) as u32]
}

/// Adds the working variables to the hash values.
#[inline(always)]
fn add_pair(first: &mut [u32; 8], second: &mut [u32; 8], v: Pair)
    ensures first { (x y : List ℕ) → AreBoth HoldTwice v x y → first.new ≡ add_state first.old x }
    ensures second { (x y : List ℕ) → AreBoth HoldTwice v x y → second.new ≡ add_state second.old y }
{
    let [a0, a1] = words_of(v.a);
    let [b0, b1] = words_of(v.b);
    let [c0, c1] = words_of(v.c);
    let [d0, d1] = words_of(v.d);
    let [e0, e1] = words_of(v.e);
    let [f0, f1] = words_of(v.f);
    let [g0, g1] = words_of(v.g);
    let [h0, h1] = words_of(v.h);
    add_variables(first, [a0, b0, c0, d0, e0, f0, g0, h0]);
    add_variables(second, [a1, b1, c1, d1, e1, f1, g1, h1]);
}

/// Takes a block, of which these are the sums, into two hash values.
fn take_sums_of_two(first: &mut [u32; 8], second: &mut [u32; 8], sums: &[u32; 64])
    ensures first { (b : List ℕ) → AreShortSums sums.now (schedule b 48) 64 → first.new ≡ compress first.old b }
    ensures second { (b : List ℕ) → AreShortSums sums.now (schedule b 48) 64 → second.new ≡ compress second.old b }
{
    let mut v = begin_pair(first, second);
    'turns: for turn in 0..8usize {
        v = four_rounds(v, sums, 8 * turn);
        v = four_rounds(v, sums, 8 * turn + 4);
    }
    add_pair(first, second, v);
}

/// Takes whole blocks into two hash values. `sums` is room for the sums of one.
fn take_each(first: &mut [u32; 8], second: &mut [u32; 8], sums: &mut [u32; 64], octets: &[u8])
    requires { length octets.now % 64 ≡ 0 }
    ensures first { first.new ≡ hash_after first.old octets.now (length octets.now / 64) }
    ensures second { second.new ≡ hash_after second.old octets.now (length octets.now / 64) }
{
    'each: for i in 0..octets.len() / BLOCK {
        put_schedule(sums, &octets[BLOCK * i..BLOCK * i + BLOCK]);
        take_sums_of_two(first, second, sums);
    }
}

/// Takes a block that was begun, if any, and the whole blocks after it into two hash values.
#[inline(never)]
pub(crate) fn take_blocks_of_two(
    first: &mut [u32; 8],
    second: &mut [u32; 8],
    begun: &[u8],
    octets: &[u8],
)
    requires begun { length begun.now % 64 ≡ 0 }
    requires octets { length octets.now % 64 ≡ 0 }
    ensures first { first.new ≡ hash_after (hash_after first.old begun.now (length begun.now / 64)) octets.now
        (length octets.now / 64) }
    ensures second { second.new ≡ hash_after (hash_after second.old begun.now (length begun.now / 64)) octets.now
        (length octets.now / 64) }
{
    let mut sums = [0u32; 64];
    take_each(first, second, &mut sums, begun);
    take_each(first, second, &mut sums, octets);
}

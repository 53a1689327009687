//! The rounds of two hash values over a block at once (FIPS 180-4, 6.4.2, steps 2 to 4): the lanes of a vector are the
//! same working variable of both.
ghost use Rattle.std.specs.Prelude.{◌≡◌, ℕ, ◌+◌, ◌≤◌, List, map};
ghost use Rattle.sha2.specs.Sha512.{add64, add_state, big_sigma0, big_sigma1, compress, round, rounds, schedule};
ghost use Rattle.sha2_blocks.specs.Pairs.{AreBoth, HoldOnce};
ghost use Rattle.sha2_blocks.specs.Sums.{AreLongSums};

use crate::long_rounds::add_variables;
use crate::pairs::{Pair, choose, majority};
use std::simd::u64x2;

/// The upper case sigma 0 of each lane (4.1.3).
#[inline(always)]
fn upper_sigma0(x: u64x2) -> u64x2
    ensures { result ≡ map big_sigma0 x }
{
    ((x >> 28) | (x << 36)) ^ ((x >> 34) | (x << 30)) ^ ((x >> 39) | (x << 25))
}

/// The upper case sigma 1 of each lane (4.1.3).
#[inline(always)]
fn upper_sigma1(x: u64x2) -> u64x2
    ensures { result ≡ map big_sigma1 x }
{
    ((x >> 14) | (x << 50)) ^ ((x >> 18) | (x << 46)) ^ ((x >> 41) | (x << 23))
}

/// The working variables before the first round: the two hash values.
#[inline(always)]
fn begin_pair(first: &[u64; 8], second: &[u64; 8]) -> Pair
    ensures { AreBoth HoldOnce result first.now second.now }
{
    Pair {
        a: u64x2::from_array([first[0], second[0]]),
        b: u64x2::from_array([first[1], second[1]]),
        c: u64x2::from_array([first[2], second[2]]),
        d: u64x2::from_array([first[3], second[3]]),
        e: u64x2::from_array([first[4], second[4]]),
        f: u64x2::from_array([first[5], second[5]]),
        g: u64x2::from_array([first[6], second[6]]),
        h: u64x2::from_array([first[7], second[7]]),
    }
}

/// One round of both, with the sum of its constant and its word.
#[inline(always)]
fn one_round(v: Pair, sum: u64) -> Pair
    ensures { (x y : List ℕ) (k w : ℕ) → sum ≡ add64 k w → AreBoth HoldOnce v x y
        → AreBoth HoldOnce result (round x k w) (round y k w) }
{
    let temp1 = v.h + upper_sigma1(v.e) + choose(v.e, v.f, v.g) + u64x2::splat(sum);
    let temp2 = upper_sigma0(v.a) + majority(v.a, v.b, v.c);
    Pair {
        a: temp1 + temp2,
        b: v.a,
        c: v.b,
        d: v.c,
        e: v.d + temp1,
        f: v.e,
        g: v.f,
        h: v.g,
    }
}

/// The four rounds from `t` on, of both.
#[inline(always)]
fn four_rounds(v: Pair, sums: &[u64; 80], t: usize) -> Pair
    requires { t + 4 ≤ 80 }
    ensures { (g h ws : List ℕ) → AreLongSums sums.now ws (t + 4) → AreBoth HoldOnce v (rounds g ws t) (rounds h ws t)
        → AreBoth HoldOnce result (rounds g ws (t + 4)) (rounds h ws (t + 4)) }
{
    let v = one_round(v, sums[t]);
    let v = one_round(v, sums[t + 1]);
    let v = one_round(v, sums[t + 2]);
    one_round(v, sums[t + 3])
}

/// Adds the working variables to the hash values.
#[inline(always)]
fn add_pair(first: &mut [u64; 8], second: &mut [u64; 8], v: Pair)
    ensures first { (x y : List ℕ) → AreBoth HoldOnce v x y → first.new ≡ add_state first.old x }
    ensures second { (x y : List ℕ) → AreBoth HoldOnce v x y → second.new ≡ add_state second.old y }
{
    let [a0, a1] = v.a.to_array();
    let [b0, b1] = v.b.to_array();
    let [c0, c1] = v.c.to_array();
    let [d0, d1] = v.d.to_array();
    let [e0, e1] = v.e.to_array();
    let [f0, f1] = v.f.to_array();
    let [g0, g1] = v.g.to_array();
    let [h0, h1] = v.h.to_array();
    add_variables(first, [a0, b0, c0, d0, e0, f0, g0, h0]);
    add_variables(second, [a1, b1, c1, d1, e1, f1, g1, h1]);
}

/// Takes a block, of which these are the sums, into two hash values.
pub(crate) fn take_sums_of_two(first: &mut [u64; 8], second: &mut [u64; 8], sums: &[u64; 80])
    ensures first { (b : List ℕ) → AreLongSums sums.now (schedule b 64) 80 → first.new ≡ compress first.old b }
    ensures second { (b : List ℕ) → AreLongSums sums.now (schedule b 64) 80 → second.new ≡ compress second.old b }
{
    let mut v = begin_pair(first, second);
    'turns: for turn in 0..10usize {
        v = four_rounds(v, sums, 8 * turn);
        v = four_rounds(v, sums, 8 * turn + 4);
    }
    add_pair(first, second, v);
}

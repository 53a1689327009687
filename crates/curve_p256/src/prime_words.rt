//! Products, sums and differences modulo the prime of P-256, in Montgomery's form.
ghost use Rattle.std.specs.Prelude.{◌≡◌, ◌+◌, ◌*◌, ◌%◌, ◌^◌, ◌<◌, ◌⊎◌, nat_lt};
ghost use Rattle.curve_points.specs.Residues.{Congruent};
ghost use Rattle.curve_p256.specs.Numbers.{four_words, five_words, prime};

use crate::numbers::{Four, NONE, Step, Sum};
use curve_words::{add_carry, multiply_add, subtract_borrow};

/// (t + a b) / 2^64, once a multiple of the prime is added that makes the lowest word 0.
fn take_word(t: Sum, a: u64, b: Four) -> Step
    requires small { five_words t.t0 t.t1 t.t2 t.t3 t.t4 < 2 * prime }
    requires reduced { four_words b.w0 b.w1 b.w2 b.w3 < prime }
    ensures value { 2 ^ 64 * five_words result.sum.t0 result.sum.t1 result.sum.t2 result.sum.t3 result.sum.t4
        ≡ five_words t.t0 t.t1 t.t2 t.t3 t.t4 + a * four_words b.w0 b.w1 b.w2 b.w3 + result.times * prime }
    ensures small { five_words result.sum.t0 result.sum.t1 result.sum.t2 result.sum.t3 result.sum.t4 < 2 * prime }
{
    let p0 = multiply_add(a, b.w0, t.t0, 0);
    let p1 = multiply_add(a, b.w1, t.t1, p0.high);
    let p2 = multiply_add(a, b.w2, t.t2, p1.high);
    let p3 = multiply_add(a, b.w3, t.t3, p2.high);
    let top = p3.high + t.t4;
    let times = p0.low;
    let q1 = multiply_add(times, 0x1_0000_0000, p1.low, 0);
    let q2 = add_carry(p2.low, q1.high, 0);
    let q3 = multiply_add(times, 0xffff_ffff_0000_0001, p3.low, q2.high);
    let q4 = add_carry(top, q3.high, 0);
    Step {
        sum: Sum {
            t0: q1.low,
            t1: q2.low,
            t2: q3.low,
            t3: q4.low,
            t4: q4.high,
        },
        times,
    }
}

/// A number below twice the prime, less that if it isn't below it.
pub(crate) fn reduced(t: Sum) -> Four
    requires small { five_words t.t0 t.t1 t.t2 t.t3 t.t4 < 2 * prime }
    ensures reduced { four_words result.w0 result.w1 result.w2 result.w3 < prime }
    ensures value { (five_words t.t0 t.t1 t.t2 t.t3 t.t4 ≡ four_words result.w0 result.w1 result.w2 result.w3)
        ⊎ (five_words t.t0 t.t1 t.t2 t.t3 t.t4 ≡ four_words result.w0 result.w1 result.w2 result.w3 + prime) }
{
    let s0 = add_carry(t.t0, 1, 0);
    let s1 = add_carry(t.t1, 0xffff_ffff_0000_0000, s0.high);
    let s2 = add_carry(t.t2, 0xffff_ffff_ffff_ffff, s1.high);
    let s3 = add_carry(t.t3, 0xffff_fffe, s2.high);
    if t.t4 + s3.high == 0 {
        Four {
            w0: t.t0,
            w1: t.t1,
            w2: t.t2,
            w3: t.t3,
        }
    } else {
        Four {
            w0: s0.low,
            w1: s1.low,
            w2: s2.low,
            w3: s3.low,
        }
    }
}

/// a b / 2^256.
pub(crate) fn product(a: Four, b: Four) -> Four
    requires reduced { four_words b.w0 b.w1 b.w2 b.w3 < prime }
    ensures reduced { four_words result.w0 result.w1 result.w2 result.w3 < prime }
    ensures value { Congruent prime (2 ^ 256 * four_words result.w0 result.w1 result.w2 result.w3)
        (four_words a.w0 a.w1 a.w2 a.w3 * four_words b.w0 b.w1 b.w2 b.w3) }
{
    let first = take_word(NONE, a.w0, b);
    let second = take_word(first.sum, a.w1, b);
    let third = take_word(second.sum, a.w2, b);
    let fourth = take_word(third.sum, a.w3, b);
    reduced(fourth.sum)
}

/// a + b.
pub(crate) fn sum(a: Four, b: Four) -> Four
    requires a_reduced { four_words a.w0 a.w1 a.w2 a.w3 < prime }
    requires b_reduced { four_words b.w0 b.w1 b.w2 b.w3 < prime }
    ensures reduced { four_words result.w0 result.w1 result.w2 result.w3 < prime }
    ensures value { Congruent prime (four_words result.w0 result.w1 result.w2 result.w3)
        (four_words a.w0 a.w1 a.w2 a.w3 + four_words b.w0 b.w1 b.w2 b.w3) }
{
    let s0 = add_carry(a.w0, b.w0, 0);
    let s1 = add_carry(a.w1, b.w1, s0.high);
    let s2 = add_carry(a.w2, b.w2, s1.high);
    let s3 = add_carry(a.w3, b.w3, s2.high);
    reduced(Sum {
        t0: s0.low,
        t1: s1.low,
        t2: s2.low,
        t3: s3.low,
        t4: s3.high,
    })
}

/// a - b, or that and the prime.
pub(crate) fn difference(a: Four, b: Four) -> Four
    requires a_reduced { four_words a.w0 a.w1 a.w2 a.w3 < prime }
    requires b_reduced { four_words b.w0 b.w1 b.w2 b.w3 < prime }
    ensures reduced { four_words result.w0 result.w1 result.w2 result.w3 < prime }
    ensures value { Congruent prime
        (four_words result.w0 result.w1 result.w2 result.w3 + four_words b.w0 b.w1 b.w2 b.w3)
        (four_words a.w0 a.w1 a.w2 a.w3) }
{
    let s0 = subtract_borrow(a.w0, b.w0, 0);
    let s1 = subtract_borrow(a.w1, b.w1, s0.high);
    let s2 = subtract_borrow(a.w2, b.w2, s1.high);
    let s3 = subtract_borrow(a.w3, b.w3, s2.high);
    if s3.high == 0 {
        Four {
            w0: s0.low,
            w1: s1.low,
            w2: s2.low,
            w3: s3.low,
        }
    } else {
        let t0 = add_carry(s0.low, 0xffff_ffff_ffff_ffff, 0);
        let t1 = add_carry(s1.low, 0xffff_ffff, t0.high);
        let t2 = add_carry(s2.low, 0, t1.high);
        let t3 = add_carry(s3.low, 0xffff_ffff_0000_0001, t2.high);
        Four {
            w0: t0.low,
            w1: t1.low,
            w2: t2.low,
            w3: t3.low,
        }
    }
}

/// Whether the number is below the prime.
pub(crate) fn is_below(a: Four) -> bool
    ensures { result ≡ nat_lt (four_words a.w0 a.w1 a.w2 a.w3) prime }
{
    let s0 = add_carry(a.w0, 1, 0);
    let s1 = add_carry(a.w1, 0xffff_ffff_0000_0000, s0.high);
    let s2 = add_carry(a.w2, 0xffff_ffff_ffff_ffff, s1.high);
    let s3 = add_carry(a.w3, 0xffff_fffe, s2.high);
    s3.high == 0
}

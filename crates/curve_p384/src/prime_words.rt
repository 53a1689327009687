//! Products, sums and differences modulo the prime of P-384, in Montgomery's form.
ghost use Rattle.std.specs.Prelude.{◌≡◌, ◌+◌, ◌*◌, ◌%◌, ◌^◌, ◌<◌, ◌⊎◌, nat_lt};
ghost use Rattle.curve_points.specs.Residues.{Congruent};
ghost use Rattle.curve_p384.specs.Numbers.{six_words, seven_words, prime};

use crate::numbers::{NONE, Six, Step, Sum};
use curve_words::{add_carry, multiply_add, subtract_borrow};

/// How often the prime is added to a number with the word `low` at its end to make that word 0, and what is carried.
#[derive(Clone, Copy)]
struct Cleared {
    times: u64,
    carry: u64,
}

fn clear_low(low: u64) -> Cleared
    ensures { 2 ^ 64 * result.carry ≡ low + result.times * 0xffffffff }
{
    let times = low.wrapping_mul(0x1_0000_0001);
    let sum = multiply_add(times, 0xffff_ffff, low, 0);
    Cleared {
        times,
        carry: sum.high,
    }
}

/// (t + a b) / 2^64, once a multiple of the prime is added that makes the lowest word 0.
fn take_word(t: Sum, a: u64, b: Six) -> Step
    requires small { seven_words t.t0 t.t1 t.t2 t.t3 t.t4 t.t5 t.t6 < 2 * prime }
    requires reduced { six_words b.w0 b.w1 b.w2 b.w3 b.w4 b.w5 < prime }
    ensures value { 2 ^ 64
        * seven_words result.sum.t0 result.sum.t1 result.sum.t2 result.sum.t3 result.sum.t4 result.sum.t5 result.sum.t6
        ≡ seven_words t.t0 t.t1 t.t2 t.t3 t.t4 t.t5 t.t6 + a * six_words b.w0 b.w1 b.w2 b.w3 b.w4 b.w5
        + result.times * prime }
    ensures small { seven_words result.sum.t0 result.sum.t1 result.sum.t2 result.sum.t3 result.sum.t4 result.sum.t5
        result.sum.t6 < 2 * prime }
{
    let p0 = multiply_add(a, b.w0, t.t0, 0);
    let p1 = multiply_add(a, b.w1, t.t1, p0.high);
    let p2 = multiply_add(a, b.w2, t.t2, p1.high);
    let p3 = multiply_add(a, b.w3, t.t3, p2.high);
    let p4 = multiply_add(a, b.w4, t.t4, p3.high);
    let p5 = multiply_add(a, b.w5, t.t5, p4.high);
    let top = add_carry(p5.high, t.t6, 0);
    let clear = clear_low(p0.low);
    let times = clear.times;
    let q1 = multiply_add(times, 0xffff_ffff_0000_0000, p1.low, clear.carry);
    let q2 = multiply_add(times, 0xffff_ffff_ffff_fffe, p2.low, q1.high);
    let q3 = multiply_add(times, 0xffff_ffff_ffff_ffff, p3.low, q2.high);
    let q4 = multiply_add(times, 0xffff_ffff_ffff_ffff, p4.low, q3.high);
    let q5 = multiply_add(times, 0xffff_ffff_ffff_ffff, p5.low, q4.high);
    let q6 = add_carry(top.low, q5.high, 0);
    let last = q6.high + top.high;
    Step {
        sum: Sum {
            t0: q1.low,
            t1: q2.low,
            t2: q3.low,
            t3: q4.low,
            t4: q5.low,
            t5: q6.low,
            t6: last,
        },
        times,
    }
}

/// A number below twice the prime, less that if it isn't below it.
pub(crate) fn reduced(t: Sum) -> Six
    requires small { seven_words t.t0 t.t1 t.t2 t.t3 t.t4 t.t5 t.t6 < 2 * prime }
    ensures reduced { six_words result.w0 result.w1 result.w2 result.w3 result.w4 result.w5 < prime }
    ensures value { (seven_words t.t0 t.t1 t.t2 t.t3 t.t4 t.t5 t.t6
        ≡ six_words result.w0 result.w1 result.w2 result.w3 result.w4 result.w5)
        ⊎ (seven_words t.t0 t.t1 t.t2 t.t3 t.t4 t.t5 t.t6
        ≡ six_words result.w0 result.w1 result.w2 result.w3 result.w4 result.w5 + prime) }
{
    let s0 = add_carry(t.t0, 0xffff_ffff_0000_0001, 0);
    let s1 = add_carry(t.t1, 0xffff_ffff, s0.high);
    let s2 = add_carry(t.t2, 1, s1.high);
    let s3 = add_carry(t.t3, 0, s2.high);
    let s4 = add_carry(t.t4, 0, s3.high);
    let s5 = add_carry(t.t5, 0, s4.high);
    if t.t6 + s5.high == 0 {
        Six {
            w0: t.t0,
            w1: t.t1,
            w2: t.t2,
            w3: t.t3,
            w4: t.t4,
            w5: t.t5,
        }
    } else {
        Six {
            w0: s0.low,
            w1: s1.low,
            w2: s2.low,
            w3: s3.low,
            w4: s4.low,
            w5: s5.low,
        }
    }
}

/// a b / 2^384.
pub(crate) fn product(a: Six, b: Six) -> Six
    requires reduced { six_words b.w0 b.w1 b.w2 b.w3 b.w4 b.w5 < prime }
    ensures reduced { six_words result.w0 result.w1 result.w2 result.w3 result.w4 result.w5 < prime }
    ensures value { Congruent prime (2 ^ 384 * six_words result.w0 result.w1 result.w2 result.w3 result.w4 result.w5)
        (six_words a.w0 a.w1 a.w2 a.w3 a.w4 a.w5 * six_words b.w0 b.w1 b.w2 b.w3 b.w4 b.w5) }
{
    let first = take_word(NONE, a.w0, b);
    let second = take_word(first.sum, a.w1, b);
    let third = take_word(second.sum, a.w2, b);
    let fourth = take_word(third.sum, a.w3, b);
    let fifth = take_word(fourth.sum, a.w4, b);
    let sixth = take_word(fifth.sum, a.w5, b);
    reduced(sixth.sum)
}

/// a + b.
pub(crate) fn sum(a: Six, b: Six) -> Six
    requires a_reduced { six_words a.w0 a.w1 a.w2 a.w3 a.w4 a.w5 < prime }
    requires b_reduced { six_words b.w0 b.w1 b.w2 b.w3 b.w4 b.w5 < prime }
    ensures reduced { six_words result.w0 result.w1 result.w2 result.w3 result.w4 result.w5 < prime }
    ensures value { Congruent prime (six_words result.w0 result.w1 result.w2 result.w3 result.w4 result.w5)
        (six_words a.w0 a.w1 a.w2 a.w3 a.w4 a.w5 + six_words b.w0 b.w1 b.w2 b.w3 b.w4 b.w5) }
{
    let s0 = add_carry(a.w0, b.w0, 0);
    let s1 = add_carry(a.w1, b.w1, s0.high);
    let s2 = add_carry(a.w2, b.w2, s1.high);
    let s3 = add_carry(a.w3, b.w3, s2.high);
    let s4 = add_carry(a.w4, b.w4, s3.high);
    let s5 = add_carry(a.w5, b.w5, s4.high);
    reduced(Sum {
        t0: s0.low,
        t1: s1.low,
        t2: s2.low,
        t3: s3.low,
        t4: s4.low,
        t5: s5.low,
        t6: s5.high,
    })
}

/// a - b, or that and the prime.
pub(crate) fn difference(a: Six, b: Six) -> Six
    requires a_reduced { six_words a.w0 a.w1 a.w2 a.w3 a.w4 a.w5 < prime }
    requires b_reduced { six_words b.w0 b.w1 b.w2 b.w3 b.w4 b.w5 < prime }
    ensures reduced { six_words result.w0 result.w1 result.w2 result.w3 result.w4 result.w5 < prime }
    ensures value { Congruent prime (six_words result.w0 result.w1 result.w2 result.w3 result.w4 result.w5
        + six_words b.w0 b.w1 b.w2 b.w3 b.w4 b.w5)
        (six_words a.w0 a.w1 a.w2 a.w3 a.w4 a.w5) }
{
    let s0 = subtract_borrow(a.w0, b.w0, 0);
    let s1 = subtract_borrow(a.w1, b.w1, s0.high);
    let s2 = subtract_borrow(a.w2, b.w2, s1.high);
    let s3 = subtract_borrow(a.w3, b.w3, s2.high);
    let s4 = subtract_borrow(a.w4, b.w4, s3.high);
    let s5 = subtract_borrow(a.w5, b.w5, s4.high);
    if s5.high == 0 {
        Six {
            w0: s0.low,
            w1: s1.low,
            w2: s2.low,
            w3: s3.low,
            w4: s4.low,
            w5: s5.low,
        }
    } else {
        let t0 = add_carry(s0.low, 0xffff_ffff, 0);
        let t1 = add_carry(s1.low, 0xffff_ffff_0000_0000, t0.high);
        let t2 = add_carry(s2.low, 0xffff_ffff_ffff_fffe, t1.high);
        let t3 = add_carry(s3.low, 0xffff_ffff_ffff_ffff, t2.high);
        let t4 = add_carry(s4.low, 0xffff_ffff_ffff_ffff, t3.high);
        let t5 = add_carry(s5.low, 0xffff_ffff_ffff_ffff, t4.high);
        Six {
            w0: t0.low,
            w1: t1.low,
            w2: t2.low,
            w3: t3.low,
            w4: t4.low,
            w5: t5.low,
        }
    }
}

/// Whether the number is below the prime.
pub(crate) fn is_below(a: Six) -> bool
    ensures { result ≡ nat_lt (six_words a.w0 a.w1 a.w2 a.w3 a.w4 a.w5) prime }
{
    let s0 = add_carry(a.w0, 0xffff_ffff_0000_0001, 0);
    let s1 = add_carry(a.w1, 0xffff_ffff, s0.high);
    let s2 = add_carry(a.w2, 1, s1.high);
    let s3 = add_carry(a.w3, 0, s2.high);
    let s4 = add_carry(a.w4, 0, s3.high);
    let s5 = add_carry(a.w5, 0, s4.high);
    s5.high == 0
}

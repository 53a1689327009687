//! Products modulo the order of the base point of P-384, in Montgomery's form.
ghost use Rattle.std.specs.Prelude.{◌≡◌, ◌+◌, ◌*◌, ◌%◌, ◌^◌, ◌<◌, ◌⊎◌, nat_lt};
ghost use Rattle.curve_points.specs.Residues.{Congruent};
ghost use Rattle.curve_p384.specs.Numbers.{six_words, seven_words, order};

use crate::numbers::{NONE, Six, Step, Sum};
use curve_words::{add_carry, multiply_add};

/// How often the order is added to a number with the word `low` at its end to make that word 0, and what is carried.
#[derive(Clone, Copy)]
struct Cleared {
    times: u64,
    carry: u64,
}

fn clear_low(low: u64) -> Cleared
    ensures { 2 ^ 64 * result.carry ≡ low + result.times * 0xecec196accc52973 }
{
    let times = low.wrapping_mul(0x6ed4_6089_e88f_dc45);
    let sum = multiply_add(times, 0xecec_196a_ccc5_2973, low, 0);
    Cleared {
        times,
        carry: sum.high,
    }
}

/// (t + a b) / 2^64, once a multiple of the order is added that makes the lowest word 0.
fn take_word(t: Sum, a: u64, b: Six) -> Step
    requires small { seven_words t.t0 t.t1 t.t2 t.t3 t.t4 t.t5 t.t6 < 2 * order }
    requires reduced { six_words b.w0 b.w1 b.w2 b.w3 b.w4 b.w5 < order }
    ensures value { 2 ^ 64
        * seven_words result.sum.t0 result.sum.t1 result.sum.t2 result.sum.t3 result.sum.t4 result.sum.t5 result.sum.t6
        ≡ seven_words t.t0 t.t1 t.t2 t.t3 t.t4 t.t5 t.t6 + a * six_words b.w0 b.w1 b.w2 b.w3 b.w4 b.w5
        + result.times * order }
    ensures small { seven_words result.sum.t0 result.sum.t1 result.sum.t2 result.sum.t3 result.sum.t4 result.sum.t5
        result.sum.t6 < 2 * order }
{
    let p0 = multiply_add(a, b.w0, t.t0, 0);
    let p1 = multiply_add(a, b.w1, t.t1, p0.high);
    let p2 = multiply_add(a, b.w2, t.t2, p1.high);
    let p3 = multiply_add(a, b.w3, t.t3, p2.high);
    let p4 = multiply_add(a, b.w4, t.t4, p3.high);
    let p5 = multiply_add(a, b.w5, t.t5, p4.high);
    let top = add_carry(p5.high, t.t6, 0);
    let clear = clear_low(p0.low);
    let times = clear.times;
    let q1 = multiply_add(times, 0x581a_0db2_48b0_a77a, p1.low, clear.carry);
    let q2 = multiply_add(times, 0xc763_4d81_f437_2ddf, p2.low, q1.high);
    let q3 = multiply_add(times, 0xffff_ffff_ffff_ffff, p3.low, q2.high);
    let q4 = multiply_add(times, 0xffff_ffff_ffff_ffff, p4.low, q3.high);
    let q5 = multiply_add(times, 0xffff_ffff_ffff_ffff, p5.low, q4.high);
    let q6 = add_carry(top.low, q5.high, 0);
    let last = q6.high + top.high;
    Step {
        sum: Sum {
            t0: q1.low,
            t1: q2.low,
            t2: q3.low,
            t3: q4.low,
            t4: q5.low,
            t5: q6.low,
            t6: last,
        },
        times,
    }
}

/// A number below twice the order, less that if it isn't below it.
pub(crate) fn reduced(t: Sum) -> Six
    requires small { seven_words t.t0 t.t1 t.t2 t.t3 t.t4 t.t5 t.t6 < 2 * order }
    ensures reduced { six_words result.w0 result.w1 result.w2 result.w3 result.w4 result.w5 < order }
    ensures value { (seven_words t.t0 t.t1 t.t2 t.t3 t.t4 t.t5 t.t6
        ≡ six_words result.w0 result.w1 result.w2 result.w3 result.w4 result.w5)
        ⊎ (seven_words t.t0 t.t1 t.t2 t.t3 t.t4 t.t5 t.t6
        ≡ six_words result.w0 result.w1 result.w2 result.w3 result.w4 result.w5 + order) }
{
    let s0 = add_carry(t.t0, 0x1313_e695_333a_d68d, 0);
    let s1 = add_carry(t.t1, 0xa7e5_f24d_b74f_5885, s0.high);
    let s2 = add_carry(t.t2, 0x389c_b27e_0bc8_d220, s1.high);
    let s3 = add_carry(t.t3, 0, s2.high);
    let s4 = add_carry(t.t4, 0, s3.high);
    let s5 = add_carry(t.t5, 0, s4.high);
    if t.t6 + s5.high == 0 {
        Six {
            w0: t.t0,
            w1: t.t1,
            w2: t.t2,
            w3: t.t3,
            w4: t.t4,
            w5: t.t5,
        }
    } else {
        Six {
            w0: s0.low,
            w1: s1.low,
            w2: s2.low,
            w3: s3.low,
            w4: s4.low,
            w5: s5.low,
        }
    }
}

/// a b / 2^384.
pub(crate) fn product(a: Six, b: Six) -> Six
    requires reduced { six_words b.w0 b.w1 b.w2 b.w3 b.w4 b.w5 < order }
    ensures reduced { six_words result.w0 result.w1 result.w2 result.w3 result.w4 result.w5 < order }
    ensures value { Congruent order (2 ^ 384 * six_words result.w0 result.w1 result.w2 result.w3 result.w4 result.w5)
        (six_words a.w0 a.w1 a.w2 a.w3 a.w4 a.w5 * six_words b.w0 b.w1 b.w2 b.w3 b.w4 b.w5) }
{
    let first = take_word(NONE, a.w0, b);
    let second = take_word(first.sum, a.w1, b);
    let third = take_word(second.sum, a.w2, b);
    let fourth = take_word(third.sum, a.w3, b);
    let fifth = take_word(fourth.sum, a.w4, b);
    let sixth = take_word(fifth.sum, a.w5, b);
    reduced(sixth.sum)
}

/// Whether the number is below the order.
pub(crate) fn is_below(a: Six) -> bool
    ensures { result ≡ nat_lt (six_words a.w0 a.w1 a.w2 a.w3 a.w4 a.w5) order }
{
    let s0 = add_carry(a.w0, 0x1313_e695_333a_d68d, 0);
    let s1 = add_carry(a.w1, 0xa7e5_f24d_b74f_5885, s0.high);
    let s2 = add_carry(a.w2, 0x389c_b27e_0bc8_d220, s1.high);
    let s3 = add_carry(a.w3, 0, s2.high);
    let s4 = add_carry(a.w4, 0, s3.high);
    let s5 = add_carry(a.w5, 0, s4.high);
    s5.high == 0
}

/// The remainder of a number of six words.
pub(crate) fn remainder(a: Six) -> Six
    ensures { six_words result.w0 result.w1 result.w2 result.w3 result.w4 result.w5
        ≡ (six_words a.w0 a.w1 a.w2 a.w3 a.w4 a.w5) % order }
{
    reduced(Sum {
        t0: a.w0,
        t1: a.w1,
        t2: a.w2,
        t3: a.w3,
        t4: a.w4,
        t5: a.w5,
        t6: 0,
    })
}

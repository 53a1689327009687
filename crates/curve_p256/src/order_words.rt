//! Products modulo the order of the base point of P-256, in Montgomery's form.
ghost use Rattle.std.specs.Prelude.{◌≡◌, ◌+◌, ◌*◌, ◌%◌, ◌^◌, ◌<◌, ◌⊎◌, nat_lt};
ghost use Rattle.curve_points.specs.Residues.{Congruent};
ghost use Rattle.curve_p256.specs.Numbers.{four_words, five_words, order};

use crate::numbers::{Four, NONE, Step, Sum};
use curve_words::{add_carry, multiply_add};

/// How often the order is added to a number with the word `low` at its end to make that word 0, and what is carried.
#[derive(Clone, Copy)]
struct Cleared {
    times: u64,
    carry: u64,
}

fn clear_low(low: u64) -> Cleared
    ensures { 2 ^ 64 * result.carry ≡ low + result.times * 0xf3b9cac2fc632551 }
{
    let times = low.wrapping_mul(0xccd1_c8aa_ee00_bc4f);
    let sum = multiply_add(times, 0xf3b9_cac2_fc63_2551, low, 0);
    Cleared {
        times,
        carry: sum.high,
    }
}

/// (t + a b) / 2^64, once a multiple of the order is added that makes the lowest word 0.
fn take_word(t: Sum, a: u64, b: Four) -> Step
    requires small { five_words t.t0 t.t1 t.t2 t.t3 t.t4 < 2 * order }
    requires reduced { four_words b.w0 b.w1 b.w2 b.w3 < order }
    ensures value { 2 ^ 64 * five_words result.sum.t0 result.sum.t1 result.sum.t2 result.sum.t3 result.sum.t4
        ≡ five_words t.t0 t.t1 t.t2 t.t3 t.t4 + a * four_words b.w0 b.w1 b.w2 b.w3 + result.times * order }
    ensures small { five_words result.sum.t0 result.sum.t1 result.sum.t2 result.sum.t3 result.sum.t4 < 2 * order }
{
    let p0 = multiply_add(a, b.w0, t.t0, 0);
    let p1 = multiply_add(a, b.w1, t.t1, p0.high);
    let p2 = multiply_add(a, b.w2, t.t2, p1.high);
    let p3 = multiply_add(a, b.w3, t.t3, p2.high);
    let top = add_carry(p3.high, t.t4, 0);
    let clear = clear_low(p0.low);
    let times = clear.times;
    let q1 = multiply_add(times, 0xbce6_faad_a717_9e84, p1.low, clear.carry);
    let q2 = multiply_add(times, 0xffff_ffff_ffff_ffff, p2.low, q1.high);
    let q3 = multiply_add(times, 0xffff_ffff_0000_0000, p3.low, q2.high);
    let q4 = add_carry(top.low, q3.high, 0);
    let last = q4.high + top.high;
    Step {
        sum: Sum {
            t0: q1.low,
            t1: q2.low,
            t2: q3.low,
            t3: q4.low,
            t4: last,
        },
        times,
    }
}

/// A number below twice the order, less that if it isn't below it.
pub(crate) fn reduced(t: Sum) -> Four
    requires small { five_words t.t0 t.t1 t.t2 t.t3 t.t4 < 2 * order }
    ensures reduced { four_words result.w0 result.w1 result.w2 result.w3 < order }
    ensures value { (five_words t.t0 t.t1 t.t2 t.t3 t.t4 ≡ four_words result.w0 result.w1 result.w2 result.w3)
        ⊎ (five_words t.t0 t.t1 t.t2 t.t3 t.t4 ≡ four_words result.w0 result.w1 result.w2 result.w3 + order) }
{
    let s0 = add_carry(t.t0, 0xc46_353d_039c_daaf, 0);
    let s1 = add_carry(t.t1, 0x4319_0552_58e8_617b, s0.high);
    let s2 = add_carry(t.t2, 0, s1.high);
    let s3 = add_carry(t.t3, 0xffff_ffff, s2.high);
    if t.t4 + s3.high == 0 {
        Four {
            w0: t.t0,
            w1: t.t1,
            w2: t.t2,
            w3: t.t3,
        }
    } else {
        Four {
            w0: s0.low,
            w1: s1.low,
            w2: s2.low,
            w3: s3.low,
        }
    }
}

/// a b / 2^256.
pub(crate) fn product(a: Four, b: Four) -> Four
    requires reduced { four_words b.w0 b.w1 b.w2 b.w3 < order }
    ensures reduced { four_words result.w0 result.w1 result.w2 result.w3 < order }
    ensures value { Congruent order (2 ^ 256 * four_words result.w0 result.w1 result.w2 result.w3)
        (four_words a.w0 a.w1 a.w2 a.w3 * four_words b.w0 b.w1 b.w2 b.w3) }
{
    let first = take_word(NONE, a.w0, b);
    let second = take_word(first.sum, a.w1, b);
    let third = take_word(second.sum, a.w2, b);
    let fourth = take_word(third.sum, a.w3, b);
    reduced(fourth.sum)
}

/// Whether the number is below the order.
pub(crate) fn is_below(a: Four) -> bool
    ensures { result ≡ nat_lt (four_words a.w0 a.w1 a.w2 a.w3) order }
{
    let s0 = add_carry(a.w0, 0xc46_353d_039c_daaf, 0);
    let s1 = add_carry(a.w1, 0x4319_0552_58e8_617b, s0.high);
    let s2 = add_carry(a.w2, 0, s1.high);
    let s3 = add_carry(a.w3, 0xffff_ffff, s2.high);
    s3.high == 0
}

/// The remainder of a number of four words.
pub(crate) fn remainder(a: Four) -> Four
    ensures { four_words result.w0 result.w1 result.w2 result.w3 ≡ (four_words a.w0 a.w1 a.w2 a.w3) % order }
{
    reduced(Sum {
        t0: a.w0,
        t1: a.w1,
        t2: a.w2,
        t3: a.w3,
        t4: 0,
    })
}

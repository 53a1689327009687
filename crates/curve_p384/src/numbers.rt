//! Numbers in six words.
ghost use Rattle.std.specs.Prelude.{◌≡◌, ◌+◌, ◌*◌, ◌^◌, ◌<◌, ◌≤◌, ◌↔◌, true, nat_eq, IfSome, None};
ghost use Rattle.curve_points.specs.Words.{number};
ghost use Rattle.curve_p384.specs.Numbers.{six_words};

use curve_words::multiply_add;

/// Six words, the least first.
#[derive(Clone, Copy)]
pub(crate) struct Six {
    pub(crate) w0: u64,
    pub(crate) w1: u64,
    pub(crate) w2: u64,
    pub(crate) w3: u64,
    pub(crate) w4: u64,
    pub(crate) w5: u64,
}

/// One word more.
#[derive(Clone, Copy)]
pub(crate) struct Sum {
    pub(crate) t0: u64,
    pub(crate) t1: u64,
    pub(crate) t2: u64,
    pub(crate) t3: u64,
    pub(crate) t4: u64,
    pub(crate) t5: u64,
    pub(crate) t6: u64,
}

/// A sum, and how often a modulus was added to make its lowest word 0.
#[derive(Clone, Copy)]
pub(crate) struct Step {
    pub(crate) sum: Sum,
    pub(crate) times: u64,
}

/// 0.
pub(crate) const NONE: Sum = Sum {
    t0: 0,
    t1: 0,
    t2: 0,
    t3: 0,
    t4: 0,
    t5: 0,
    t6: 0,
};

/// The words of a slice.
pub(crate) fn from_words(words: &[u64; 6]) -> Six
    ensures { six_words result.w0 result.w1 result.w2 result.w3 result.w4 result.w5 ≡ number words.now }
{
    Six {
        w0: words[0],
        w1: words[1],
        w2: words[2],
        w3: words[3],
        w4: words[4],
        w5: words[5],
    }
}

/// The same words as an array.
pub(crate) fn to_words(a: Six) -> [u64; 6]
    ensures { number result ≡ six_words a.w0 a.w1 a.w2 a.w3 a.w4 a.w5 }
{
    [a.w0, a.w1, a.w2, a.w3, a.w4, a.w5]
}

/// Whether the number is 0.
pub(crate) fn is_none(a: Six) -> bool
    ensures { (result ≡ true) ↔ (six_words a.w0 a.w1 a.w2 a.w3 a.w4 a.w5 ≡ 0) }
{
    if a.w0 != 0 {
        return false;
    }
    if a.w1 != 0 {
        return false;
    }
    if a.w2 != 0 {
        return false;
    }
    if a.w3 != 0 {
        return false;
    }
    if a.w4 != 0 {
        return false;
    }
    a.w5 == 0
}

/// Whether both are one number.
pub(crate) fn is_same(a: Six, b: Six) -> bool
    ensures { result ≡ nat_eq (six_words a.w0 a.w1 a.w2 a.w3 a.w4 a.w5) (six_words b.w0 b.w1 b.w2 b.w3 b.w4 b.w5) }
{
    if a.w0 != b.w0 {
        return false;
    }
    if a.w1 != b.w1 {
        return false;
    }
    if a.w2 != b.w2 {
        return false;
    }
    if a.w3 != b.w3 {
        return false;
    }
    if a.w4 != b.w4 {
        return false;
    }
    a.w5 == b.w5
}

/// The number with one octet more at its end, if it has no more words.
pub(crate) fn pushed(a: Six, octet: u8) -> Option<Six>
    ensures found { IfSome result (λ more. six_words more.w0 more.w1 more.w2 more.w3 more.w4 more.w5
        ≡ (six_words a.w0 a.w1 a.w2 a.w3 a.w4 a.w5) * 256 + octet) }
    ensures none { result ≡ None → 256 ^ 48 ≤ (six_words a.w0 a.w1 a.w2 a.w3 a.w4 a.w5) * 256 + octet }
{
    let p0 = multiply_add(a.w0, 256, u64::from(octet), 0);
    let p1 = multiply_add(a.w1, 256, p0.high, 0);
    let p2 = multiply_add(a.w2, 256, p1.high, 0);
    let p3 = multiply_add(a.w3, 256, p2.high, 0);
    let p4 = multiply_add(a.w4, 256, p3.high, 0);
    let p5 = multiply_add(a.w5, 256, p4.high, 0);
    if p5.high != 0 {
        return None;
    }
    Some(Six {
        w0: p0.low,
        w1: p1.low,
        w2: p2.low,
        w3: p3.low,
        w4: p4.low,
        w5: p5.low,
    })
}

//! Numbers in four words.
ghost use Rattle.std.specs.Prelude.{◌≡◌, ◌+◌, ◌*◌, ◌^◌, ◌<◌, ◌≤◌, ◌↔◌, true, nat_eq, IfSome, None};
ghost use Rattle.curve_points.specs.Words.{number};
ghost use Rattle.curve_p256.specs.Numbers.{four_words};

use curve_words::multiply_add;

/// Four words, the least first.
#[derive(Clone, Copy)]
pub(crate) struct Four {
    pub(crate) w0: u64,
    pub(crate) w1: u64,
    pub(crate) w2: u64,
    pub(crate) w3: u64,
}

/// One word more.
#[derive(Clone, Copy)]
pub(crate) struct Sum {
    pub(crate) t0: u64,
    pub(crate) t1: u64,
    pub(crate) t2: u64,
    pub(crate) t3: u64,
    pub(crate) t4: u64,
}

/// A sum, and how often a modulus was added to make its lowest word 0.
#[derive(Clone, Copy)]
pub(crate) struct Step {
    pub(crate) sum: Sum,
    pub(crate) times: u64,
}

/// 0.
pub(crate) const NONE: Sum = Sum {
    t0: 0,
    t1: 0,
    t2: 0,
    t3: 0,
    t4: 0,
};

/// The words of a slice.
pub(crate) fn from_words(words: &[u64; 4]) -> Four
    ensures { four_words result.w0 result.w1 result.w2 result.w3 ≡ number words.now }
{
    Four {
        w0: words[0],
        w1: words[1],
        w2: words[2],
        w3: words[3],
    }
}

/// The same words as an array.
pub(crate) fn to_words(a: Four) -> [u64; 4]
    ensures { number result ≡ four_words a.w0 a.w1 a.w2 a.w3 }
{
    [a.w0, a.w1, a.w2, a.w3]
}

/// Whether the number is 0.
pub(crate) fn is_none(a: Four) -> bool
    ensures { (result ≡ true) ↔ (four_words a.w0 a.w1 a.w2 a.w3 ≡ 0) }
{
    if a.w0 != 0 {
        return false;
    }
    if a.w1 != 0 {
        return false;
    }
    if a.w2 != 0 {
        return false;
    }
    a.w3 == 0
}

/// Whether both are one number.
pub(crate) fn is_same(a: Four, b: Four) -> bool
    ensures { result ≡ nat_eq (four_words a.w0 a.w1 a.w2 a.w3) (four_words b.w0 b.w1 b.w2 b.w3) }
{
    if a.w0 != b.w0 {
        return false;
    }
    if a.w1 != b.w1 {
        return false;
    }
    if a.w2 != b.w2 {
        return false;
    }
    a.w3 == b.w3
}

/// The number with one octet more at its end, if it has no more words.
pub(crate) fn pushed(a: Four, octet: u8) -> Option<Four>
    ensures found { IfSome result (λ more. four_words more.w0 more.w1 more.w2 more.w3
        ≡ (four_words a.w0 a.w1 a.w2 a.w3) * 256 + octet) }
    ensures none { result ≡ None → 256 ^ 32 ≤ (four_words a.w0 a.w1 a.w2 a.w3) * 256 + octet }
{
    let p0 = multiply_add(a.w0, 256, u64::from(octet), 0);
    let p1 = multiply_add(a.w1, 256, p0.high, 0);
    let p2 = multiply_add(a.w2, 256, p1.high, 0);
    let p3 = multiply_add(a.w3, 256, p2.high, 0);
    if p3.high != 0 {
        return None;
    }
    Some(Four {
        w0: p0.low,
        w1: p1.low,
        w2: p2.low,
        w3: p3.low,
    })
}

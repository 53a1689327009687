//! Numbers modulo the order of the base point of P-384.
ghost use Rattle.std.specs.Prelude.{◌≡◌, ℕ, ◌+◌, ◌*◌, ◌%◌, ◌^◌, ◌<◌, ◌≤◌};
ghost use Rattle.std.proofs.Common.{rules};
ghost use Rattle.curve_points.specs.Residues.{Congruent};
ghost use Rattle.curve_points.specs.Words.{number};
ghost use Rattle.curve_words.specs.Forms.{meant};
ghost use Rattle.curve_p384.specs.Numbers.{six_words, order, order_unscale};

use crate::numbers::{Six, is_same};
use crate::order_words::product;
use curve_points::Residue;
use std::marker::Model;

/// 1 in words.
const ONE: Six = Six {
    w0: 1,
    w1: 0,
    w2: 0,
    w3: 0,
    w4: 0,
    w5: 0,
};

/// 2^384, as which 1 is held.
const SCALE: Six = Six {
    w0: 0x1313_e695_333a_d68d,
    w1: 0xa7e5_f24d_b74f_5885,
    w2: 0x389c_b27e_0bc8_d220,
    w3: 0,
    w4: 0,
    w5: 0,
};

/// 2^768: the product with it puts words into Montgomery's form.
const SQUARE: Six = Six {
    w0: 0x2d31_9b24_19b4_09a9,
    w1: 0xff3d_81e5_df1a_a419,
    w2: 0xbc3e_483a_fcb8_2947,
    w3: 0xd40d_4917_4aab_1cc5,
    w4: 0x3fb0_5b7a_2826_6895,
    w5: 0xc84_ee01_2b39_bf21,
};

/// The words of the order less 2.
const LESS_TWO: [u64; 6] = [
    0xecec_196a_ccc5_2971,
    0x581a_0db2_48b0_a77a,
    0xc763_4d81_f437_2ddf,
    0xffff_ffff_ffff_ffff,
    0xffff_ffff_ffff_ffff,
    0xffff_ffff_ffff_ffff,
];

/// A number modulo the order, which a contract sees as the number below that.
#[derive(Drop)]
pub struct Scalar {
    words: Six,
}

impl Model for Scalar {
    ghost Value = { ℕ };

    ghost view = { λ e.
        meant order order_unscale (six_words e.words.w0 e.words.w1 e.words.w2 e.words.w3 e.words.w4 e.words.w5) };

    ghost invariant = { λ e. six_words e.words.w0 e.words.w1 e.words.w2 e.words.w3 e.words.w4 e.words.w5 < order };
}

impl Scalar {
    /// The number of the words modulo the order.
    pub(crate) fn from_words(words: Six) -> Scalar
        ensures value { Congruent order result (six_words words.w0 words.w1 words.w2 words.w3 words.w4 words.w5) }
        ensures reduced { result < order }
    {
        let words = product(words, SQUARE);
        Scalar { words }
    }

    /// The words of the number.
    pub(crate) fn to_words(&self) -> Six
        ensures value { six_words result.w0 result.w1 result.w2 result.w3 result.w4 result.w5 ≡ self.now }
        ensures reduced { self.now < order }
    {
        product(ONE, self.words)
    }
}

impl Residue for Scalar {
    ghost modulus = { order };

    ghost value = { λ e. e };

    fn one() -> Self {
        Scalar { words: SCALE }
    }

    fn times(&self, other: &Self) -> Self {
        let words = product(self.words, other.words);
        Scalar { words }
    }

    fn is_same(&self, other: &Self) -> bool {
        is_same(self.words, other.words)
    }

    fn inverting_exponent() -> &'static [u64] {
        &LESS_TWO
    }

    ghost large = { Prim.search rules };
}

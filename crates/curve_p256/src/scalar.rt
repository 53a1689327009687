//! Numbers modulo the order of the base point of P-256.
ghost use Rattle.std.specs.Prelude.{◌≡◌, ℕ, ◌+◌, ◌*◌, ◌%◌, ◌^◌, ◌<◌, ◌≤◌};
ghost use Rattle.std.proofs.Common.{rules};
ghost use Rattle.curve_points.specs.Residues.{Congruent};
ghost use Rattle.curve_points.specs.Words.{number};
ghost use Rattle.curve_words.specs.Forms.{meant};
ghost use Rattle.curve_p256.specs.Numbers.{four_words, order, order_unscale};

use crate::numbers::{Four, is_same};
use crate::order_words::product;
use curve_points::Residue;
use std::marker::Model;

/// 1 in words.
const ONE: Four = Four {
    w0: 1,
    w1: 0,
    w2: 0,
    w3: 0,
};

/// 2^256, as which 1 is held.
const SCALE: Four = Four {
    w0: 0xc46_353d_039c_daaf,
    w1: 0x4319_0552_58e8_617b,
    w2: 0,
    w3: 0xffff_ffff,
};

/// 2^512: the product with it puts words into Montgomery's form.
const SQUARE: Four = Four {
    w0: 0x8324_4c95_be79_eea2,
    w1: 0x4699_799c_49bd_6fa6,
    w2: 0x2845_b239_2b6b_ec59,
    w3: 0x66e1_2d94_f3d9_5620,
};

/// The words of the order less 2.
const LESS_TWO: [u64; 4] = [
    0xf3b9_cac2_fc63_254f,
    0xbce6_faad_a717_9e84,
    0xffff_ffff_ffff_ffff,
    0xffff_ffff_0000_0000,
];

/// A number modulo the order, which a contract sees as the number below that.
#[derive(Drop)]
pub struct Scalar {
    words: Four,
}

impl Model for Scalar {
    ghost Value = { ℕ };

    ghost view = { λ e. meant order order_unscale (four_words e.words.w0 e.words.w1 e.words.w2 e.words.w3) };

    ghost invariant = { λ e. four_words e.words.w0 e.words.w1 e.words.w2 e.words.w3 < order };
}

impl Scalar {
    /// The number of the words modulo the order.
    pub(crate) fn from_words(words: Four) -> Scalar
        ensures value { Congruent order result (four_words words.w0 words.w1 words.w2 words.w3) }
        ensures reduced { result < order }
    {
        let words = product(words, SQUARE);
        Scalar { words }
    }

    /// The words of the number.
    pub(crate) fn to_words(&self) -> Four
        ensures value { four_words result.w0 result.w1 result.w2 result.w3 ≡ self.now }
        ensures reduced { self.now < order }
    {
        product(ONE, self.words)
    }
}

impl Residue for Scalar {
    ghost modulus = { order };

    ghost value = { λ e. e };

    fn one() -> Self {
        Scalar { words: SCALE }
    }

    fn times(&self, other: &Self) -> Self {
        let words = product(self.words, other.words);
        Scalar { words }
    }

    fn is_same(&self, other: &Self) -> bool {
        is_same(self.words, other.words)
    }

    fn inverting_exponent() -> &'static [u64] {
        &LESS_TWO
    }

    ghost large = { Prim.search rules };
}

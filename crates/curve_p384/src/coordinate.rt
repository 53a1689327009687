//! Numbers modulo the prime of P-384.
ghost use Rattle.std.specs.Prelude.{◌≡◌, ℕ, ◌+◌, ◌*◌, ◌%◌, ◌^◌, ◌<◌, ◌≤◌};
ghost use Rattle.std.proofs.Common.{rules};
ghost use Rattle.curve_points.specs.Residues.{Congruent};
ghost use Rattle.curve_points.specs.Words.{number};
ghost use Rattle.curve_words.specs.Forms.{meant};
ghost use Rattle.curve_p384.specs.Numbers.{six_words, prime, unscale};

use crate::numbers::{Six, is_none, is_same};
use crate::prime_words::{difference, product, sum};
use curve_points::{Field, Residue};
use std::marker::Model;

/// 1 in words.
const ONE: Six = Six {
    w0: 1,
    w1: 0,
    w2: 0,
    w3: 0,
    w4: 0,
    w5: 0,
};

/// 2^384, as which 1 is held.
const SCALE: Six = Six {
    w0: 0xffff_ffff_0000_0001,
    w1: 0xffff_ffff,
    w2: 1,
    w3: 0,
    w4: 0,
    w5: 0,
};

/// 2^768: the product with it puts words into Montgomery's form.
const SQUARE: Six = Six {
    w0: 0xffff_fffe_0000_0001,
    w1: 0x2_0000_0000,
    w2: 0xffff_fffe_0000_0000,
    w3: 0x2_0000_0000,
    w4: 1,
    w5: 0,
};

/// The words of the prime less 2.
const LESS_TWO: [u64; 6] = [
    0xffff_fffd,
    0xffff_ffff_0000_0000,
    0xffff_ffff_ffff_fffe,
    0xffff_ffff_ffff_ffff,
    0xffff_ffff_ffff_ffff,
    0xffff_ffff_ffff_ffff,
];

/// A number modulo the prime, which a contract sees as the number below that.
#[derive(Drop)]
pub struct Coordinate {
    words: Six,
}

impl Model for Coordinate {
    ghost Value = { ℕ };

    ghost view = { λ e.
        meant prime unscale (six_words e.words.w0 e.words.w1 e.words.w2 e.words.w3 e.words.w4 e.words.w5) };

    ghost invariant = { λ e. six_words e.words.w0 e.words.w1 e.words.w2 e.words.w3 e.words.w4 e.words.w5 < prime };
}

impl Coordinate {
    /// The number of the words, which are below the prime.
    pub(crate) fn from_words(words: Six) -> Coordinate
        requires { six_words words.w0 words.w1 words.w2 words.w3 words.w4 words.w5 < prime }
        ensures { result ≡ six_words words.w0 words.w1 words.w2 words.w3 words.w4 words.w5 }
    {
        let words = product(SQUARE, words);
        Coordinate { words }
    }

    /// The words of the number.
    pub(crate) fn to_words(&self) -> Six
        ensures value { six_words result.w0 result.w1 result.w2 result.w3 result.w4 result.w5 ≡ self.now }
        ensures reduced { self.now < prime }
    {
        product(ONE, self.words)
    }
}

impl Residue for Coordinate {
    ghost modulus = { prime };

    ghost value = { λ e. e };

    fn one() -> Self {
        Coordinate { words: SCALE }
    }

    fn times(&self, other: &Self) -> Self {
        let words = product(self.words, other.words);
        Coordinate { words }
    }

    fn is_same(&self, other: &Self) -> bool {
        is_same(self.words, other.words)
    }

    fn inverting_exponent() -> &'static [u64] {
        &LESS_TWO
    }

    ghost large = { Prim.search rules };
}

impl Field for Coordinate {
    fn plus(&self, other: &Self) -> Self {
        let words = sum(self.words, other.words);
        Coordinate { words }
    }

    fn minus(&self, other: &Self) -> Self {
        let words = difference(self.words, other.words);
        Coordinate { words }
    }

    fn is_zero(&self) -> bool {
        is_none(self.words)
    }

    fn again(&self) -> Self {
        let words = self.words;
        Coordinate { words }
    }
}

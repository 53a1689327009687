//! Numbers modulo the prime of P-256.
ghost use Rattle.std.specs.Prelude.{◌≡◌, ℕ, ◌+◌, ◌*◌, ◌%◌, ◌^◌, ◌<◌, ◌≤◌};
ghost use Rattle.std.proofs.Common.{rules};
ghost use Rattle.curve_points.specs.Residues.{Congruent};
ghost use Rattle.curve_points.specs.Words.{number};
ghost use Rattle.curve_words.specs.Forms.{meant};
ghost use Rattle.curve_p256.specs.Numbers.{four_words, prime, unscale};

use crate::numbers::{Four, is_none, is_same};
use crate::prime_words::{difference, product, sum};
use curve_points::{Field, Residue};
use std::marker::Model;

/// 1 in words.
const ONE: Four = Four {
    w0: 1,
    w1: 0,
    w2: 0,
    w3: 0,
};

/// 2^256, as which 1 is held.
const SCALE: Four = Four {
    w0: 1,
    w1: 0xffff_ffff_0000_0000,
    w2: 0xffff_ffff_ffff_ffff,
    w3: 0xffff_fffe,
};

/// 2^512: the product with it puts words into Montgomery's form.
const SQUARE: Four = Four {
    w0: 3,
    w1: 0xffff_fffb_ffff_ffff,
    w2: 0xffff_ffff_ffff_fffe,
    w3: 0x4_ffff_fffd,
};

/// The words of the prime less 2.
const LESS_TWO: [u64; 4] = [0xffff_ffff_ffff_fffd, 0xffff_ffff, 0, 0xffff_ffff_0000_0001];

/// A number modulo the prime, which a contract sees as the number below that.
#[derive(Drop)]
pub struct Coordinate {
    words: Four,
}

impl Model for Coordinate {
    ghost Value = { ℕ };

    ghost view = { λ e. meant prime unscale (four_words e.words.w0 e.words.w1 e.words.w2 e.words.w3) };

    ghost invariant = { λ e. four_words e.words.w0 e.words.w1 e.words.w2 e.words.w3 < prime };
}

impl Coordinate {
    /// The number of the words, which are below the prime.
    pub(crate) fn from_words(words: Four) -> Coordinate
        requires { four_words words.w0 words.w1 words.w2 words.w3 < prime }
        ensures { result ≡ four_words words.w0 words.w1 words.w2 words.w3 }
    {
        let words = product(SQUARE, words);
        Coordinate { words }
    }

    /// The words of the number.
    pub(crate) fn to_words(&self) -> Four
        ensures value { four_words result.w0 result.w1 result.w2 result.w3 ≡ self.now }
        ensures reduced { self.now < prime }
    {
        product(ONE, self.words)
    }
}

impl Residue for Coordinate {
    ghost modulus = { prime };

    ghost value = { λ e. e };

    fn one() -> Self {
        Coordinate { words: SCALE }
    }

    fn times(&self, other: &Self) -> Self {
        let words = product(self.words, other.words);
        Coordinate { words }
    }

    fn is_same(&self, other: &Self) -> bool {
        is_same(self.words, other.words)
    }

    fn inverting_exponent() -> &'static [u64] {
        &LESS_TWO
    }

    ghost large = { Prim.search rules };
}

impl Field for Coordinate {
    fn plus(&self, other: &Self) -> Self {
        let words = sum(self.words, other.words);
        Coordinate { words }
    }

    fn minus(&self, other: &Self) -> Self {
        let words = difference(self.words, other.words);
        Coordinate { words }
    }

    fn is_zero(&self) -> bool {
        is_none(self.words)
    }

    fn again(&self) -> Self {
        let words = self.words;
        Coordinate { words }
    }
}

//! The curve.
ghost use Rattle.curve_points.specs.Words.{number};
ghost use Rattle.std.proofs.Common.{rules};
ghost use Rattle.ecdsa_signatures.specs.Curves.{p256};

use crate::coordinate::Coordinate;
use crate::numbers::{Four, from_words, is_none, is_same, pushed, to_words};
use crate::scalar::Scalar;
use crate::{order_words, prime_words};
use ecdsa_signatures::Curve;

/// b.
const COEFFICIENT: Four = Four {
    w0: 0x3bce_3c3e_27d2_604b,
    w1: 0x651d_06b0_cc53_b0f6,
    w2: 0xb3eb_bd55_7698_86bc,
    w3: 0x5ac6_35d8_aa3a_93e7,
};

/// The first coordinate of the base point.
const BASE_X: Four = Four {
    w0: 0xf4a1_3945_d898_c296,
    w1: 0x7703_7d81_2deb_33a0,
    w2: 0xf8bc_e6e5_63a4_40f2,
    w3: 0x6b17_d1f2_e12c_4247,
};

/// The second coordinate of the base point.
const BASE_Y: Four = Four {
    w0: 0xcbb6_4068_37bf_51f5,
    w1: 0x2bce_3357_6b31_5ece,
    w2: 0x8ee7_eb4a_7c0f_9e16,
    w3: 0x4fe3_42e2_fe1a_7f9b,
};

/// P-256 (SP 800-186 3.2.1.3).
#[derive(Clone, Copy, Debug)]
pub struct P256;

impl Curve<4> for P256 {
    type Coordinate = Coordinate;

    type Scalar = Scalar;

    ghost parameters = { p256 };

    fn coordinate(words: &[u64; 4]) -> Option<Coordinate> {
        let words = from_words(words);
        if !prime_words::is_below(words) {
            return None;
        }
        Some(Coordinate::from_words(words))
    }

    fn coefficient() -> Coordinate {
        Coordinate::from_words(COEFFICIENT)
    }

    fn base_x() -> Coordinate {
        Coordinate::from_words(BASE_X)
    }

    fn base_y() -> Coordinate {
        Coordinate::from_words(BASE_Y)
    }

    fn reduced(words: &[u64; 4]) -> Scalar {
        Scalar::from_words(from_words(words))
    }

    fn scalar(words: &[u64; 4]) -> Option<Scalar> {
        let words = from_words(words);
        if is_none(words) {
            return None;
        }
        if !order_words::is_below(words) {
            return None;
        }
        Some(Scalar::from_words(words))
    }

    fn words(scalar: &Scalar) -> [u64; 4] {
        to_words(scalar.to_words())
    }

    fn is_remainder(x: &Coordinate, r: &Scalar) -> bool {
        let remainder = order_words::remainder(x.to_words());
        is_same(remainder, r.to_words())
    }

    fn zero() -> [u64; 4] {
        [0; 4]
    }

    fn pushed(words: &[u64; 4], octet: u8) -> Option<[u64; 4]> {
        let more = pushed(from_words(words), octet)?;
        Some(to_words(more))
    }

    ghost same_prime = { Prim.search rules };

    ghost same_order = { Prim.search rules };

    ghost same_bits = { Prim.search rules };

    ghost few = { Prim.search rules };

    ghost prime_fits = { Prim.search rules };

    ghost order_fits = { Prim.search rules };
}

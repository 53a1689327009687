//! The curve.
ghost use Rattle.curve_points.specs.Words.{number};
ghost use Rattle.std.proofs.Common.{rules};
ghost use Rattle.ecdsa_signatures.specs.Curves.{p384};

use crate::coordinate::Coordinate;
use crate::numbers::{Six, from_words, is_none, is_same, pushed, to_words};
use crate::scalar::Scalar;
use crate::{order_words, prime_words};
use ecdsa_signatures::Curve;

/// b.
const COEFFICIENT: Six = Six {
    w0: 0x2a85_c8ed_d3ec_2aef,
    w1: 0xc656_398d_8a2e_d19d,
    w2: 0x314_088f_5013_875a,
    w3: 0x181d_9c6e_fe81_4112,
    w4: 0x988e_056b_e3f8_2d19,
    w5: 0xb331_2fa7_e23e_e7e4,
};

/// The first coordinate of the base point.
const BASE_X: Six = Six {
    w0: 0x3a54_5e38_7276_0ab7,
    w1: 0x5502_f25d_bf55_296c,
    w2: 0x59f7_41e0_8254_2a38,
    w3: 0x6e1d_3b62_8ba7_9b98,
    w4: 0x8eb1_c71e_f320_ad74,
    w5: 0xaa87_ca22_be8b_0537,
};

/// The second coordinate of the base point.
const BASE_Y: Six = Six {
    w0: 0x7a43_1d7c_90ea_0e5f,
    w1: 0xa60_b1ce_1d7e_819d,
    w2: 0xe9da_3113_b5f0_b8c0,
    w3: 0xf8f4_1dbd_289a_147c,
    w4: 0x5d9e_98bf_9292_dc29,
    w5: 0x3617_de4a_9626_2c6f,
};

/// P-384 (SP 800-186 3.2.1.4).
#[derive(Clone, Copy, Debug)]
pub struct P384;

impl Curve<6> for P384 {
    type Coordinate = Coordinate;

    type Scalar = Scalar;

    ghost parameters = { p384 };

    fn coordinate(words: &[u64; 6]) -> Option<Coordinate> {
        let words = from_words(words);
        if !prime_words::is_below(words) {
            return None;
        }
        Some(Coordinate::from_words(words))
    }

    fn coefficient() -> Coordinate {
        Coordinate::from_words(COEFFICIENT)
    }

    fn base_x() -> Coordinate {
        Coordinate::from_words(BASE_X)
    }

    fn base_y() -> Coordinate {
        Coordinate::from_words(BASE_Y)
    }

    fn reduced(words: &[u64; 6]) -> Scalar {
        Scalar::from_words(from_words(words))
    }

    fn scalar(words: &[u64; 6]) -> Option<Scalar> {
        let words = from_words(words);
        if is_none(words) {
            return None;
        }
        if !order_words::is_below(words) {
            return None;
        }
        Some(Scalar::from_words(words))
    }

    fn words(scalar: &Scalar) -> [u64; 6] {
        to_words(scalar.to_words())
    }

    fn is_remainder(x: &Coordinate, r: &Scalar) -> bool {
        let remainder = order_words::remainder(x.to_words());
        is_same(remainder, r.to_words())
    }

    fn zero() -> [u64; 6] {
        [0; 6]
    }

    fn pushed(words: &[u64; 6], octet: u8) -> Option<[u64; 6]> {
        let more = pushed(from_words(words), octet)?;
        Some(to_words(more))
    }

    ghost same_prime = { Prim.search rules };

    ghost same_order = { Prim.search rules };

    ghost same_bits = { Prim.search rules };

    ghost few = { Prim.search rules };

    ghost prime_fits = { Prim.search rules };

    ghost order_fits = { Prim.search rules };
}

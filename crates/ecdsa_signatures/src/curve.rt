//! What a curve's own crate gives.
ghost use Rattle.std.specs.Prelude.{◌≡◌, ℕ, ◌+◌, ◌*◌, ◌%◌, ◌^◌, ◌<◌, ◌≤◌, IfSome, None, length, true, false, nat_eq};
ghost use Rattle.curve_points.specs.Residues.{Congruent};
ghost use Rattle.curve_points.specs.Words.{number};
ghost use Rattle.ecdsa_signatures.specs.Signatures.{Parameters, is_scalar};

use curve_points::{Field, Residue};

/// A curve whose numbers have so many words.
pub trait Curve<const WORDS: usize> {
    /// Numbers modulo p, which are coordinates.
    type Coordinate: Field;

    /// Numbers modulo n, the order of the base point.
    type Scalar: Residue;

    /// The curve.
    ghost parameters: { Parameters };

    /// The coordinate that these words are, the least first, if they are below p.
    fn coordinate(words: &[u64; WORDS]) -> Option<Self::Coordinate>
        // It is that number, which is below p.
        ensures found { IfSome result
            (λ x. (Self.Coordinate.value x ≡ number words.now) × (number words.now < parameters.p)) }
        // If there is none, the number is p or more.
        ensures none { result ≡ None → parameters.p ≤ number words.now };

    /// The coefficient b.
    fn coefficient() -> Self::Coordinate
        ensures { Self.Coordinate.value result ≡ parameters.b };

    /// The first coordinate of the base point.
    fn base_x() -> Self::Coordinate
        // It is that coordinate.
        ensures value { Self.Coordinate.value result ≡ parameters.base_x }
        // It is below p.
        ensures reduced { Self.Coordinate.value result < parameters.p };

    /// The second coordinate of the base point.
    fn base_y() -> Self::Coordinate
        // It is that coordinate.
        ensures value { Self.Coordinate.value result ≡ parameters.base_y }
        // It is below p.
        ensures reduced { Self.Coordinate.value result < parameters.p };

    /// The number modulo n that these words are, the least first.
    fn reduced(words: &[u64; WORDS]) -> Self::Scalar
        ensures { Congruent parameters.n (Self.Scalar.value result) (number words.now) };

    /// The same, if they are from 1 to n - 1.
    fn scalar(words: &[u64; WORDS]) -> Option<Self::Scalar>
        // It is that number, from 1 to n - 1.
        ensures found { IfSome result (λ r. (Self.Scalar.value r ≡ number words.now)
            × (is_scalar parameters.n (number words.now) ≡ true)) }
        // If there is none, the number is 0, or n or more.
        ensures none { result ≡ None → is_scalar parameters.n (number words.now) ≡ false };

    /// The words of a number modulo n, the least first.
    fn words(scalar: &Self::Scalar) -> [u64; WORDS]
        // They are that number, below n.
        ensures value { number result ≡ Self.Scalar.value scalar.now % parameters.n }
        // They have as many bits as multiples are computed by.
        ensures bits { 64 * length result ≡ parameters.bits };

    /// Whether a coordinate is this number modulo n.
    fn is_remainder(x: &Self::Coordinate, r: &Self::Scalar) -> bool
        ensures { result ≡ nat_eq (Self.Coordinate.value x.now % parameters.n) (Self.Scalar.value r.now) };

    /// 0.
    fn zero() -> [u64; WORDS]
        ensures { number result ≡ 0 };

    /// The number with one octet more at its end, if these words hold it.
    fn pushed(words: &[u64; WORDS], octet: u8) -> Option<[u64; WORDS]>
        // It is 256 times the number and the octet.
        ensures found { IfSome result (λ more. number more ≡ number words.now * 256 + octet) }
        // If there is none, that has more words.
        ensures none { result ≡ None → 256 ^ (8 * WORDS) ≤ number words.now * 256 + octet };

    ghost same_prime: { Self.Coordinate.modulus ≡ parameters.p };

    ghost same_order: { Self.Scalar.modulus ≡ parameters.n };

    ghost same_bits: { 64 * WORDS ≡ parameters.bits };

    ghost few: { WORDS < 2 ^ 16 };

    ghost prime_fits: { parameters.p ≤ 256 ^ (8 * WORDS) };

    ghost order_fits: { parameters.n ≤ 256 ^ (8 * WORDS) };
}

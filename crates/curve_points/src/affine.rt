//! Points as pairs.
ghost use Rattle.std.specs.Prelude.{◌≡◌, ◌<◌, ◌%◌, IfSome, None};
ghost use Rattle.curve_points.specs.Residues.{HasWitness};
ghost use Rattle.curve_points.specs.Points.{Point};
ghost use Rattle.curve_points.specs.Standing.{StandsFor, point_of};

use crate::field::Field;
use crate::jacobian::Jacobian;
use crate::powers::inverse;

/// A point in affine coordinates.
#[derive(Drop)]
pub enum Affine<F> {
    /// The group's zero.
    Infinity,
    /// The pair (x, y).
    At(F, F),
}

/// The point in affine coordinates, or `None` if the modulus is no prime.
pub fn to_affine<F: Field>(a: &Jacobian<F>) -> Option<Affine<F>>
    // It is the point.
    ensures found { IfSome result (λ o. (P : Point) → StandsFor F.modulus F.value a.now P → P ≡ point_of F.value o) }

    // If there is none, a number shows that the modulus is no prime.
    ensures none { result ≡ None → (P : Point) → StandsFor F.modulus F.value a.now P → HasWitness F.modulus }
{
    let inverse = inverse(&a.z)?;
    if a.is_infinite {
        return Some(Affine::Infinity);
    }
    let square = inverse.times(&inverse);
    let cube = square.times(&inverse);
    Some(Affine::At(a.x.times(&square), a.y.times(&cube)))
}

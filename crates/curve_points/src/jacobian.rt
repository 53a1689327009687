//! Points in Jacobian coordinates.
ghost use Rattle.std.specs.Prelude.{◌≡◌, ℕ, ◌+◌, ◌*◌, ◌<◌, true, false, ◌↔◌};
ghost use Rattle.curve_points.specs.Residues.{Congruent, IsUnit};
ghost use Rattle.curve_points.specs.Points.{Point, infinity, affine, sum};
ghost use Rattle.curve_points.specs.JacobianSteps.{IsAt, Doubles, Adds};
ghost use Rattle.curve_points.specs.Standing.{StandsFor, IsInPlace};

use crate::field::Field;

/// A point: infinity, or (x / z^2, y / z^3).
///
/// z is the product of all divisors on the way to it, and not 0. That it has an inverse, and each divisor with it, is
/// seen when `to_affine` finds one.
#[derive(Drop)]
pub struct Jacobian<F> {
    pub(crate) is_infinite: bool,
    pub(crate) x: F,
    pub(crate) y: F,
    pub(crate) z: F,
}

/// The point (x, y).
pub fn at<F: Field>(x: F, y: F) -> Jacobian<F>
    requires x_reduced { F.value x < F.modulus }
    requires y_reduced { F.value y < F.modulus }
    ensures { StandsFor F.modulus F.value result (affine (F.value x) (F.value y)) }
{
    Jacobian {
        is_infinite: false,
        x,
        y,
        z: F::one(),
    }
}

/// Infinity, by this product of divisors.
pub(crate) fn infinite<F: Field>(z: &F) -> Jacobian<F>
    ensures infinite { result.is_infinite ≡ true }
    ensures z { F.value result.z ≡ F.value z.now }
{
    Jacobian {
        is_infinite: true,
        x: F::one(),
        y: F::one(),
        z: z.again(),
    }
}

/// The point where the tangent meets the curve again, mirrored.
fn tangent<F: Field>(a: &Jacobian<F>) -> Jacobian<F>
    ensures finite { result.is_infinite ≡ false }
    ensures z { Congruent F.modulus (F.value result.z) (2 * (F.value a.now.y * F.value a.now.z)) }
    ensures point { Doubles F.modulus (F.value a.now.x) (F.value a.now.y) (F.value a.now.z)
        (F.value result.x) (F.value result.y) (F.value result.z) }
{
    let zz = a.z.times(&a.z);
    let yy = a.y.times(&a.y);
    let xyy = a.x.times(&yy);
    let two_xyy = xyy.plus(&xyy);
    let s = two_xyy.plus(&two_xyy);
    let low = a.x.minus(&zz);
    let high = a.x.plus(&zz);
    let product = low.times(&high);
    let two_products = product.plus(&product);
    let m = two_products.plus(&product);
    let mm = m.times(&m);
    let ss = s.plus(&s);
    let x = mm.minus(&ss);
    let gap = s.minus(&x);
    let turn = m.times(&gap);
    let y4 = yy.times(&yy);
    let two_y4 = y4.plus(&y4);
    let four_y4 = two_y4.plus(&two_y4);
    let eight_y4 = four_y4.plus(&four_y4);
    let y = turn.minus(&eight_y4);
    let yz = a.y.times(&a.z);
    let z = yz.plus(&yz);
    Jacobian {
        is_infinite: false,
        x,
        y,
        z,
    }
}

/// The point where the chord through two points meets the curve again, mirrored.
fn chord<F: Field>(a: &Jacobian<F>, b: &Jacobian<F>) -> Jacobian<F>
    ensures finite { result.is_infinite ≡ false }
    ensures z { (h : ℕ) × (Congruent F.modulus (h + F.value a.now.x * (F.value b.now.z * F.value b.now.z))
        (F.value b.now.x * (F.value a.now.z * F.value a.now.z))
        × Congruent F.modulus (F.value result.z) (h * (F.value a.now.z * F.value b.now.z))) }
    ensures point { Adds F.modulus (F.value a.now.x) (F.value a.now.y) (F.value a.now.z)
        (F.value b.now.x) (F.value b.now.y) (F.value b.now.z)
        (F.value result.x) (F.value result.y) (F.value result.z) }
{
    let zz = a.z.times(&a.z);
    let cc = b.z.times(&b.z);
    let u1 = a.x.times(&cc);
    let u2 = b.x.times(&zz);
    let zzz = zz.times(&a.z);
    let ccc = cc.times(&b.z);
    let s1 = a.y.times(&ccc);
    let s2 = b.y.times(&zzz);
    let h = u2.minus(&u1);
    let r = s2.minus(&s1);
    let hh = h.times(&h);
    let hhh = hh.times(&h);
    let t = u1.times(&hh);
    let rr = r.times(&r);
    let two_t = t.plus(&t);
    let part = rr.minus(&hhh);
    let x = part.minus(&two_t);
    let gap = t.minus(&x);
    let turn = r.times(&gap);
    let fall = s1.times(&hhh);
    let y = turn.minus(&fall);
    let zc = a.z.times(&b.z);
    let z = h.times(&zc);
    Jacobian {
        is_infinite: false,
        x,
        y,
        z,
    }
}

/// The same point once more.
pub(crate) fn again<F: Field>(a: &Jacobian<F>) -> Jacobian<F>
    ensures infinite { result.is_infinite ≡ a.now.is_infinite }
    ensures x { F.value result.x ≡ F.value a.now.x }
    ensures y { F.value result.y ≡ F.value a.now.y }
    ensures z { F.value result.z ≡ F.value a.now.z }
{
    Jacobian {
        is_infinite: a.is_infinite,
        x: a.x.again(),
        y: a.y.again(),
        z: a.z.again(),
    }
}

/// The same point, with one more divisor, which isn't 0.
fn widened<F: Field>(a: &Jacobian<F>, by: &F) -> Jacobian<F>
    ensures { (P : Point) → (Congruent F.modulus (F.value a.now.z) 0 → ⊥) → (Congruent F.modulus (F.value by.now) 0 → ⊥)
        → (IsUnit F.modulus (F.value a.now.z) → IsUnit F.modulus (F.value by.now)
        → IsInPlace a.now.is_infinite F.modulus (F.value a.now.x) (F.value a.now.y) (F.value a.now.z) P)
        → StandsFor F.modulus F.value result P }
{
    let z = a.z.times(by);
    if z.is_zero() {
        // the modulus is no prime, and neither of the two has an inverse
        return again(a);
    }
    let square = by.times(by);
    let cube = square.times(by);
    Jacobian {
        is_infinite: a.is_infinite,
        x: a.x.times(&square),
        y: a.y.times(&cube),
        z,
    }
}

/// Whether the second coordinates are opposite ones.
fn is_opposite_height<F: Field>(a: &Jacobian<F>, b: &Jacobian<F>) -> bool
    ensures { (result ≡ true)
        ↔ Congruent F.modulus (F.value a.now.y * (F.value b.now.z * F.value b.now.z * F.value b.now.z)
        + F.value b.now.y * (F.value a.now.z * F.value a.now.z * F.value a.now.z)) 0 }
{
    let zz = a.z.times(&a.z);
    let zzz = zz.times(&a.z);
    let cc = b.z.times(&b.z);
    let ccc = cc.times(&b.z);
    let left = a.y.times(&ccc);
    let right = b.y.times(&zzz);
    let both = left.plus(&right);
    both.is_zero()
}

/// The double.
pub(crate) fn doubled<F: Field>(a: &Jacobian<F>) -> Jacobian<F>
    ensures point { (P : Point) → StandsFor F.modulus F.value a.now P
        → StandsFor F.modulus F.value result (sum F.modulus P P) }
    ensures divisors { IsUnit F.modulus (F.value result.z) → IsUnit F.modulus (F.value a.now.z) }
{
    if a.is_infinite {
        return infinite(&a.z);
    }
    let twice = tangent(a);
    if twice.z.is_zero() {
        return infinite(&a.z);
    }
    twice
}

/// The sum.
pub fn added<F: Field>(a: &Jacobian<F>, b: &Jacobian<F>) -> Jacobian<F>
    ensures { (P Q : Point) → StandsFor F.modulus F.value a.now P → StandsFor F.modulus F.value b.now Q
        → StandsFor F.modulus F.value result (sum F.modulus P Q) }
{
    if a.is_infinite {
        return widened(b, &a.z);
    }
    if b.is_infinite {
        return widened(a, &b.z);
    }
    let apart = chord(a, b);
    if !apart.z.is_zero() {
        return apart;
    }
    if is_opposite_height(a, b) {
        let none = infinite(&a.z);
        return widened(&none, &b.z);
    }
    let twice = doubled(a);
    widened(&twice, &b.z)
}

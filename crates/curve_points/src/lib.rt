//! Points of the curves y^2 = x^3 - 3 x + b (SP 800-186 2.1.1), over any field: sums and multiples.
//!
//! A curve's own crate gives its numbers as a `Field`. Points are in Jacobian coordinates, without an inverse until the
//! end: `to_affine` finds one, by a power, and tries it. It answers `None` only if the modulus is no prime, and its
//! contract names a number that shows this. So no primality and no law of the group is used. The words that the
//! contracts use are defined in `specs/`; begin with `specs/Points.antt`.
#![tactic(auto)]

mod affine;
mod field;
mod jacobian;
mod laws;
mod multiples;
mod powers;

pub use affine::{Affine, to_affine};
pub use field::{Field, Residue};
pub use jacobian::{Jacobian, added, at};
pub use laws::point_rows_hold;
pub use multiples::multiple;
pub use powers::{inverse, power};

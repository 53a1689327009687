//! The curve P-256 (SP 800-186 3.2.1.3): its numbers, in four words.
//!
//! `P256` is the curve, for `ecdsa_signatures`. The words that the contracts use are defined in `specs/`.
#![tactic(auto)]

mod coordinate;
mod curve;
mod numbers;
mod order_words;
mod prime_words;
mod scalar;

pub use coordinate::Coordinate;
pub use curve::P256;
pub use scalar::Scalar;

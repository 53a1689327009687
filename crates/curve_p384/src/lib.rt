//! The curve P-384 (SP 800-186 3.2.1.4): its numbers, in six words.
//!
//! `P384` is the curve, for `ecdsa_signatures`. The words that the contracts use are defined in `specs/`.
#![tactic(auto)]

mod coordinate;
mod curve;
mod numbers;
mod order_words;
mod prime_words;
mod scalar;

pub use coordinate::Coordinate;
pub use curve::P384;
pub use scalar::Scalar;

//! Signatures of ECDSA (FIPS 186-5 6.4.2), on any curve y^2 = x^3 - 3 x + b.
//!
//! A curve's own crate gives its numbers as a `Curve`; `is_signature` is the verification. The words that the contracts
//! use are defined in `specs/`; begin with `specs/Signatures.antt`.
#![tactic(auto)]

mod curve;
mod laws;
mod verifying;

pub use curve::Curve;
pub use laws::signature_rows_hold;
pub use verifying::is_signature;

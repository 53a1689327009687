//! Signatures of ECDSA in octets: coordinates, a digest, and the DER encoding of an ECDSA-Sig-Value (RFC 3279 2.2.3).
//!
//! The words that the contracts use are defined in `specs/`; begin with `specs/Octets.antt`.
#![tactic(auto)]

mod numbers;
mod value;
mod verifying;

pub use value::SignatureFields;
pub use verifying::{is_p256_signature, is_p384_signature, is_signature_in_octets};

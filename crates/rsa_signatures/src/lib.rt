//! Whether octets are a signature by RSA of a message with a digest (RFC 8017 8).
#![tactic(auto)]

mod encodings;
mod infos;
mod laws;
mod masks;
mod salted;
mod salted_signatures;
mod signatures;

pub use laws::{rows_hold, signatures_are_verified};
pub use salted_signatures::is_pss_signature;
pub use signatures::is_pkcs1_signature;

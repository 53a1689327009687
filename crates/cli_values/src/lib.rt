//! What the words of a request state: an algorithm, a digest, a policy and a nonce (RFC 3161 2.4.1).
#![tactic(auto)]

mod values;

pub use values::{alg_of, digest_of, nonce_contents, nonce_in, policy_contents};

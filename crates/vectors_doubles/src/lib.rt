//! A source that fails at its end, and a verifier that notes what it didn't expect, for tests: no crate that users link
//! depends on this one.
#![tactic(auto)]

mod expecting;
mod failing;

pub use expecting::ExpectingVerifier;
pub use failing::Failing;

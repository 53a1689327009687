//! Digest algorithms: their names, the lengths of their digests, digests that are given, and the digests of messages.
#![tactic(auto)]

mod algorithm;
mod feeding;
mod hashers;
mod laws;
mod long;
mod message;
mod selection;
mod set;
mod short;
mod value;
mod wanting;

pub use algorithm::Alg;
pub use feeding::ContentFault;
pub use hashers::{All, Digests};
pub use laws::{algorithms_are_named, digests_have_their_length, oids_are_good, rows_hold};
pub use message::digest;
pub use selection::{Wanted, WantedDigests};
pub use set::Algs;
pub use value::Digest;

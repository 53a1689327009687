//! Hash values of messages by the algorithms of SHA-2 (FIPS 180-4), with block functions that use vectors of words.
//!
//! Begin with `ShortHasher`, of SHA-224 and SHA-256, or `LongHasher`, of the algorithms whose words have 64 bits: those
//! of them that are wanted share the schedule of a block. `hash_short` and `hash_long` take a message in memory by one
//! algorithm. The caller has the initial hash values, and makes a digest of the hash value, as the crate `digests`
//! does. Below the hashers are the rounds over a block and its schedule. The standard's definitions are in the crate
//! `sha2`.
#![tactic(auto)]

mod endings;
mod long_hashers;
mod long_pairs;
mod long_rounds;
mod long_singles;
mod long_words;
mod pairs;
mod short_hashers;
mod short_pairs;
mod short_rounds;
mod short_words;

pub use long_hashers::{LongHasher, LongHashes, hash_long};
pub use short_hashers::{ShortHasher, ShortHashes, hash_short};

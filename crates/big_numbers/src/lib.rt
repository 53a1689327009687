//! Numbers of many words, and powers of them modulo an odd number.
#![tactic(auto)]

mod differences;
mod doublings;
mod inverses;
mod laws;
mod moduli;
mod octets;
mod powers;
mod products;
mod rows;

pub use laws::{octets_stand_for_numbers, rows_hold};
pub use moduli::Modulus;
pub use octets::word_of;

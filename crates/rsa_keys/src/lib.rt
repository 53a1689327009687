//! Public keys of RSA, read from a SubjectPublicKeyInfo.
#![tactic(auto)]

mod info;
mod key;
mod laws;
mod limits;
mod numbers;
mod octets;
mod parameter_parts;
mod parameters;
mod schemes;

pub use key::{RsaKey, Scheme};
pub use laws::{keys_are_read, parameters_are_read, rows_hold};
pub use parameters::PssParameters;

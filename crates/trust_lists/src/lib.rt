//! Trust lists: whom a user trusts.
//! The words that the contracts use are defined in `specs/`.
#![tactic(auto)]

mod chains;
mod entry;
mod finding;
mod laws;
mod marks;
mod role;
mod trust;
mod trust_fault;
mod trust_lines;
mod trust_version;
mod written;

pub use entry::Entry;
pub use laws::{lists_are_read_back, rows_hold};
pub use role::Role;
pub use trust::Trust;
pub use trust_fault::{TrustFault, TrustRule};

//! One archive time-stamp of an evidence record (RFC 4998): what it states, whether it fits where it stands, and
//! whether it lasts. What these are is defined in the crate `check_evidence`, in `specs/Standing.antt` and
//! `specs/Failing.antt`.
#![tactic(auto)]

mod algorithm;
mod around;
mod ends;
mod fitting;
mod lasting;
mod token_state;
mod unfit;

pub use algorithm::{alg_of, shows_alg};
pub use around::Around;
pub use ends::{End, alg_holds};
pub use fitting::fit_of;
pub use lasting::lasts;
pub use token_state::TokenState;
pub use unfit::{Fit, Unfit};

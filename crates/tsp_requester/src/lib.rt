//! What a requester does with the response of a time-stamping authority: sees whether it answers the request (RFC 3161
//! 2.2, 2.4.2), and attaches its token to one signer of a signed file (RFC 3161 appendix A).
//!
//! Begin with `answers` and `attach`. No signature is checked here. Decisions 121 and 122 of `docs/DECISIONS.md`.
#![tactic(auto)]

mod answering;
mod answering_laws;
mod attaching;
mod attaching_laws;
mod fault;
mod opening;
mod pieces;
mod putting;
mod rules;
mod stamp;
mod time_stamp;

pub use answering::{answers, granted_token};
pub use answering_laws::{answering_rows_hold, responses_are_judged};
pub use attaching::attach;
pub use attaching_laws::{attaching_rows_hold, attachments_are_judged};
pub use fault::AttachFault;
pub use rules::MatchFault;

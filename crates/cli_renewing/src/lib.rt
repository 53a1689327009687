//! What `evidence renew` does: the evidence records that it reads, the request over their last time-stamps, and the
//! records that it renews in their places (RFC 4998 5.2). Begin with `specs/Renewing.antt`.
#![tactic(auto)]

mod footing;
mod footings;
mod keeping;
mod renew;
mod request;
mod stamp;
mod step;
mod tree;

pub use footing::Footing;
pub use keeping::Keeps;
pub use renew::{renew_all, renew_records};
pub use request::{renewal_request, request_renewal};
pub use stamp::later_stamp;
pub use step::{Unrenewed, lists_of};
pub use tree::tree_on;

//! What `evidence request` and `evidence make` do: the sums of many files that they read, the request and the records
//! that they write (RFC 4998 4.2), and how they fail. Begin with `specs/Making.antt`.
#![tactic(auto)]

mod algorithm;
mod given;
mod lines;
mod make;
mod names;
mod placing;
mod request;
mod stamp;
mod sums;
mod system;

pub use given::{Given, given_by};
pub use make::{make_all, make_records};
pub use names::{has_text, text_of};
pub use placing::Puts;
pub use request::make_root_request;
pub use stamp::{Stamp, stamp_of};
pub use sums::sums_in;
pub use system::System;

//! Judging a whole evidence record (RFC 4998 4.3 and 5.3), and the laws of what records show. Begin with
//! `check_evidence`.
#![tactic(auto)]

mod check;
mod data;
mod lapsing;
mod laws;
mod run;
mod stamp_place;
mod terms;
mod walk;
mod wanted;

pub use check::check_evidence;
pub use laws::{
    members_are_shown, more_trust_shows, places_are_ordered, records_show_before,
    records_show_by_chains,
};
pub use stamp_place::StampPlace;
pub use wanted::wanted_by;

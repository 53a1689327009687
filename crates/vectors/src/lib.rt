//! Tests as data: files of octet strings that have names, files of rows that say what is answered, and how they are
//! read and compared. `docs/CONTRIBUTING.md`, section 10, says how a row is added.
#![tactic(auto)]

mod bad;
mod blobs;
mod judging;
mod notation;
mod rows;
mod saying;

pub use bad::{Bad, needed};
pub use blobs::Blobs;
pub use judging::{Judge, judge_file};
pub use notation::{number_of, range_of};
pub use rows::{Row, has_part};
pub use saying::Said;

//! Texts of sums, as `sha256sum` and its kin write them: which digests and names they state.
//! The words that the contracts use are defined in `specs/`; begin with `specs/SumLines.antt`.
#![tactic(auto)]

mod laws;
mod lines;
mod names;
mod records;
mod repeats;
mod sum_lines;
mod sums;
mod sums_fault;
mod testing;

pub use laws::{reading_fits_writing, rows_hold};
pub use records::{RecordSum, RecordSums};
pub use sums::{Sum, Sums};
pub use sums_fault::{SumsFault, SumsRule};

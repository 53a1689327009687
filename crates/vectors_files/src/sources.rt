//! The sources that calls read.
use cmsproof_api::Source;
use devices::{Fused, Pieces};

/// Octets that a source hands out, at most so many at a call, and at least one; it passes so many calls on.
pub fn source<'d>(octets: &'d [u8], most: usize, calls: u64) -> Fused<Pieces<'d>> {
    Fused::new(pieces(octets, most), calls)
}

/// Octets that a source hands out, at most so many at a call, and at least one.
pub fn pieces<'d>(octets: &'d [u8], most: usize) -> Pieces<'d> {
    Pieces::new(octets, most.max(1))
}

/// How many octets are left of a source, which hands out at least one at each of so many calls, until its end.
pub fn left_of<S: Source>(source: &mut S, calls: usize) -> usize {
    let mut left: usize = 0;
    for _ in 0..calls {
        left = left.saturating_add(source.fill(&mut [0u8; 9]).unwrap_or(0));
    }
    left
}

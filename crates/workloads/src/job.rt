//! What each job begins with.

use crate::parts::Parts;
use std::alloc::Global;

/// How many files or lists a job is of, the parts of which they are made, and the number from which the octets follow.
#[derive(Clone, Copy)]
pub(crate) struct Job<'a> {
    pub(crate) alloc: Global,
    pub(crate) parts: &'a Parts,
    pub(crate) count: usize,
    pub(crate) seed: u64,
}

//! What the jobs answer, as one number.

use crate::bad::Bad;
use std::alloc::Global;

/// How many answers there were, how many of them were yes, and a digest of all; and whether there is none, and why. No
/// call fails: a step after a call that may fail is dear to prove.
#[derive(Clone, Copy)]
pub(crate) struct Results {
    pub(crate) alloc: Global,
    pub(crate) count: u64,
    pub(crate) accepted: u64,
    pub(crate) mixed: u64,
    why: &'static str,
}

/// An odd number by which what was mixed is multiplied.
const FACTOR: u64 = 0x9e37_79b9_7f4a_7c15;

impl Results {
    /// Before any answer.
    pub(crate) fn new(alloc: Global) -> Results {
        Results {
            alloc,
            count: 0,
            accepted: 0,
            mixed: 0,
            why: "",
        }
    }

    /// Notes why there is none, if something isn't good. The first reason stands.
    pub(crate) fn note(&mut self, good: bool, why: &'static str) {
        if !good && self.why.is_empty() {
            self.why = why;
        }
    }

    /// All of them, if the job was done; or why there is none.
    pub(crate) fn end(self, done: Result<(), Bad>) -> Result<Results, Bad> {
        match done {
            Err(bad) => Err(bad),
            Ok(()) if self.why.is_empty() => Ok(self),
            Ok(()) => Err(Bad(self.why)),
        }
    }

    /// A file was accepted, or not.
    pub(crate) fn accept_if(&mut self, accepted: bool) {
        self.accepted = self.accepted.saturating_add(u64::from(accepted));
    }

    // Mixes in a number.
    fn mix(&mut self, number: u64) {
        let mixed = (self.mixed ^ number).wrapping_mul(FACTOR);
        self.mixed = mixed ^ (mixed >> 29);
    }

    /// An answer that is octets.
    pub(crate) fn take(&mut self, octets: &[u8]) {
        self.count = self.count.saturating_add(1);
        self.mix(octets.len() as u64);
        for chunk in octets.chunks(8) {
            let mut word = [0; 8];
            let count = chunk.len().min(8);
            word[..count].copy_from_slice(&chunk[..count]);
            self.mix(u64::from_le_bytes(word));
        }
    }

    /// An answer that is a number.
    pub(crate) fn take_number(&mut self, number: u64) {
        self.count = self.count.saturating_add(1);
        self.mix(number);
    }
}

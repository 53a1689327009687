//! Octets that are put one behind another.

use digests::{Alg, digest};
use std::alloc::Global;

/// Octets that are made. No call fails: that memory is refused, or that a place is not there, is noted, and told at the
/// end. A step after a call that may fail is dear to prove.
#[derive(Drop)]
pub(crate) struct Octets {
    pub(crate) octets: Vec<u8>,
    /// Whether all could be made.
    pub(crate) whole: bool,
}

impl Octets {
    /// None so far.
    pub(crate) fn new(alloc: Global) -> Octets {
        Octets {
            octets: Vec::new(alloc),
            whole: true,
        }
    }

    /// Begins with none again.
    pub(crate) fn clear(&mut self) {
        self.octets.clear();
        self.whole = true;
    }

    /// They.
    pub(crate) fn as_slice(&self) -> &[u8] {
        self.octets.as_slice()
    }

    /// Adds some.
    pub(crate) fn add(&mut self, more: &[u8]) {
        if self.octets.extend_from_slice(more).is_err() {
            self.whole = false;
        }
    }

    /// So many of them from a place on; none if they are not there.
    pub(crate) fn part(&mut self, at: usize, size: usize) -> &mut [u8] {
        let room = self.octets.as_mut_slice();
        if at > room.len() || size > room.len() - at {
            self.whole = false;
            return &mut room[..0];
        }
        &mut room[at..at + size]
    }

    /// Puts others in their place there.
    pub(crate) fn put(&mut self, at: usize, others: &[u8]) {
        let part = self.part(at, others.len());
        if part.len() == others.len() {
            part.copy_from_slice(others);
        }
    }

    /// Puts, at a place, the length of an element whose contents begin behind it and end there.
    pub(crate) fn put_length(&mut self, at: usize, size: usize, end: usize) {
        if size > 8 || at > end || size > end - at {
            self.whole = false;
            return;
        }
        let length = ((end - at - size) as u64).to_be_bytes();
        self.put(at, &length[8 - size..]);
    }

    /// Puts the SHA-256 of a part at a place.
    pub(crate) fn put_digest(&mut self, at: usize, from: usize, size: usize) {
        let found = digest(Alg::Sha256, self.part(from, size));
        self.put(at, found.bytes());
    }
}

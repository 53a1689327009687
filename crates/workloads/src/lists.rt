//! Trust lists.

use crate::bad::{Bad, needed};
use crate::job::Job;
use crate::numbers::Numbers;
use crate::octets::Octets;
use crate::parts::Entry;
use cmsproof_api::Trust;

/// The first line of a trust list.
const HEADING: &[u8] = b"cmsproof trust 1\n";

// Adds an entry whose certificate has another serial number.
fn add_other(entry: &Entry, numbers: &mut Numbers, text: &mut Octets) {
    let from = text.octets.len();
    text.add(entry.line.as_slice());
    numbers.fill_digits(text.part(from.saturating_add(entry.at), entry.size));
}

/// A list: so many entries that no file needs, and then those that files need.
pub(crate) fn trust_of(job: &Job<'_>, others: usize, numbers: &mut Numbers) -> Result<Trust, Bad> {
    let entries = job.parts.entries.as_slice();
    let mut text = Octets::new(job.alloc);
    text.add(HEADING);
    for number in 0..others {
        if let Some(entry) = entries.get(number % entries.len().max(1)) {
            add_other(entry, numbers, &mut text);
        }
    }
    with_needed(job, text)
}

/// A list in which each certificate stands so often in the other role, and then once in its own.
pub(crate) fn twisted_trust_of(job: &Job<'_>, often: usize) -> Result<Trust, Bad> {
    let mut text = Octets::new(job.alloc);
    text.add(HEADING);
    for _ in 0..often {
        for entry in job.parts.entries.as_slice() {
            text.add(entry.twisted.as_slice());
        }
    }
    with_needed(job, text)
}

// The list of a text to which the entries that files need are added.
fn with_needed(job: &Job<'_>, mut text: Octets) -> Result<Trust, Bad> {
    for entry in job.parts.entries.as_slice() {
        text.add(entry.line.as_slice());
    }
    let read = Trust::read(job.alloc, text.as_slice());
    if text.whole && !job.parts.entries.is_empty() {
        needed(read, "a trust list has a fault")
    } else {
        Err(Bad("a trust list can't be made"))
    }
}

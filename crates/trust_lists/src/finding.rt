//! Entries that are found by a role and a mark.
ghost use Rattle.std.specs.Prelude.{◌≡◌, ◌<◌, length, IfOk, IfErr};
ghost use Rattle.trust_lists.specs.Chains.{IsNextAt};
ghost use Rattle.trust_lists.specs.Marks.{AreMarked, StandsAt};

use crate::chains::Chains;
use crate::entry::Entry;
use crate::marks::{MarkBy, label_of};
use crate::role::Role;
use std::alloc::{AllocError, Global};

// The labels of entries, in their order.
fn labels_of(alloc: Global, entries: &[Entry], by: MarkBy) -> Result<Vec<u64>, AllocError>
    ensures found { IfOk result (λ labels. AreMarked by entries.now labels.items) }
    // For no entries no memory is taken.
    ensures memory { IfErr result (λ _. 0 < length entries.now) }
{
    let mut labels = Vec::with_capacity(alloc, entries.len())?;
    for entry in entries {
        labels.push(label_of(entry.role(), entry.mark(by)))?;
    }
    Ok(labels)
}

/// The chains of the labels of entries.
///
/// Errors: memory is refused.
pub(crate) fn chains_of(alloc: Global, entries: &[Entry], by: MarkBy) -> Result<Chains, AllocError>
    ensures found { IfOk result (λ labels. AreMarked by entries.now labels) }
    // For no entries no memory is taken.
    ensures memory { IfErr result (λ _. 0 < length entries.now) }
{
    let labels = labels_of(alloc, entries, by)?;
    Chains::of(alloc, labels)
}

/// The place of the next entry of this role, from this place on, where the label of the role and this mark stands.
/// Entries of another role aren't looked at, unless a label of theirs is the same.
pub(crate) fn next_marked(
    entries: &[Entry],
    labels: &Chains,
    role: Role,
    mark: u64,
    from: usize,
) -> Option<usize>
    requires { length labels.now ≡ length entries.now }
    ensures { IsNextAt (StandsAt role mark entries.now labels.now) (length entries.now) from result }
{
    let label = label_of(role, mark);
    let mut at = from;
    while let Some(found) = labels.next(label, at) {
        if entries[found].role() == role {
            return Some(found);
        }
        at = found + 1;
    }
    None
}

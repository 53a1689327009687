ghost use Rattle.std.specs.Prelude.{◌≡◌, ◌<◌, [], length, map, IfOk, OnOk, All, IsPermutation};
ghost use Rattle.digests.specs.Algorithms.{length_of};
ghost use Rattle.digests.specs.Digests.{alg_of, octets_of};
ghost use Rattle.check_evidence.specs.Roots.{IsAscending};
ghost use Rattle.evidence_trees.specs.Distinct.{once};
ghost use Rattle.evidence_trees.specs.HashTrees.{AreLeavesOf};

use crate::values::HashValues;
use der_core::octets::is_same;
use digests::{Alg, Digest};
use std::alloc::{AllocError, Global};

// References to the digests: the index that is sorted.
fn references_to<'a>(alloc: Global, digests: &'a [Digest]) -> Result<Vec<&'a Digest>, AllocError>
    ensures { IfOk result (λ v. map (λ d. d.now) v.items ≡ digests.now) }
{
    let mut references = Vec::with_capacity(alloc, digests.len())?;
    for digest in digests {
        references.push(digest)?;
    }
    Ok(references)
}

// The digests in ascending order of their octets.
fn in_order<'a>(alloc: Global, digests: &'a [Digest]) -> Result<Vec<&'a Digest>, AllocError>
    ensures permutation { IfOk result (λ v. IsPermutation digests.now (map (λ d. d.now) v.items)) }
    ensures ascending { IfOk result (λ v. IsAscending (map (λ d. octets_of d.now) v.items)) }
{
    let mut sorted = references_to(alloc, digests)?;
    sorted.sort_unstable_by(|first, second| first.bytes().cmp(second.bytes()));
    Ok(sorted)
}

// Adds the octets of the digests that differ from the one before them.
fn push_once(leaves: &mut HashValues, sorted: &[&Digest]) -> Result<(), AllocError>
    requires none { leaves.old.values ≡ [] }
    requires size { All (λ d. length_of (alg_of d.now) ≡ leaves.old.size) sorted.now }
    ensures once { OnOk result (leaves.new.values ≡ once (map (λ d. octets_of d.now) sorted.now)) }
    ensures size { leaves.new.size ≡ leaves.old.size }
{
    let Some((first, others)) = sorted.split_first() else {
        return Ok(());
    };
    leaves.push(first.bytes())?;
    let mut last = first.bytes();
    for digest in others {
        let octets = digest.bytes();
        if !is_same(octets, last) {
            leaves.push(octets)?;
            last = octets;
        }
    }
    Ok(())
}

/// The octets of the different digests in ascending order, and memory for a tree over them.
pub fn leaves_of(
    alloc: Global,
    alg: Alg,
    digests: &[Digest],
    capacity: usize,
) -> Result<HashValues, AllocError>
    requires { All (λ d. alg_of d ≡ alg) digests.now }
    ensures leaves { IfOk result (λ v. AreLeavesOf (map octets_of digests.now) v.values) }
    ensures size { IfOk result (λ v. v.size ≡ length_of alg) }
    ensures lengths { IfOk result (λ v. All (λ w. length w ≡ length_of alg) v.values) }
{
    let sorted = in_order(alloc, digests)?;
    let mut leaves = HashValues::with_capacity(alloc, alg.length(), capacity)?;
    push_once(&mut leaves, &sorted)?;
    Ok(leaves)
}

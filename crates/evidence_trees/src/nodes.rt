ghost use Rattle.std.specs.Prelude.{◌≡◌, ◌≤◌, ◌<◌, ◌++◌, length, drop, IfOk, OnOk, All};
ghost use Rattle.digests.specs.Algorithms.{length_of};
ghost use Rattle.digests.specs.Digests.{alg_of, octets_of};
ghost use Rattle.evidence_trees.specs.HashTrees.{node_of, level_above, level_at};
ghost use Rattle.evidence_trees.specs.Climbing.{levels};

use crate::values::HashValues;
use check_evidence::digest_of_both;
use der_core::octets::is_less;
use digests::{Alg, Digest};
use std::alloc::AllocError;

// The node of two values.
fn node(alg: Alg, value: &[u8], other: &[u8]) -> Digest
    ensures algorithm { alg_of result ≡ alg }
    ensures octets { octets_of result ≡ node_of alg value.now other.now }
{
    if is_less(other, value) {
        digest_of_both(alg, other, value)
    } else {
        digest_of_both(alg, value, other)
    }
}

// Adds the level above the last one, which begins at `start`.
fn push_level(alg: Alg, nodes: &mut HashValues, start: usize) -> Result<(), AllocError>
    requires within { start ≤ length nodes.old.values }
    requires size { nodes.old.size ≡ length_of alg }
    ensures level { OnOk result
        (nodes.new.values ≡ nodes.old.values ++ level_above alg (drop start nodes.old.values)) }
    ensures size { nodes.new.size ≡ nodes.old.size }
{
    let end = nodes.len();
    let mut at = start;
    while end - at > 1 {
        let above = node(alg, nodes.get(at), nodes.get(at + 1));
        nodes.push(above.bytes())?;
        at += 2;
    }
    if at < end {
        nodes.push_again(at)?;
    }
    Ok(())
}

/// Adds to leaves the levels above them, up to the root, and returns how many levels these are.
pub fn raise(alg: Alg, nodes: &mut HashValues) -> Result<usize, AllocError>
    requires some { 0 < length nodes.old.values }
    requires size { nodes.old.size ≡ length_of alg }
    ensures levels { IfOk result (λ height. nodes.new.values ≡ levels alg height nodes.old.values) }
    ensures one { IfOk result (λ height. length (level_at alg height nodes.old.values) ≡ 1) }
    ensures size { nodes.new.size ≡ nodes.old.size }
{
    let mut start = 0;
    let mut height = 0;
    while nodes.len() - start > 1 {
        let next = nodes.len();
        push_level(alg, nodes, start)?;
        start = next;
        height += 1;
    }
    Ok(height)
}

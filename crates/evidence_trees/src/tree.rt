ghost use Rattle.std.specs.Prelude.{◌≡◌, ◌<◌, ◌↔◌, length, map, IfOk, IfSome, IsSome, All, Contains};
ghost use Rattle.digests.specs.Digests.{alg_of, octets_of};
ghost use Rattle.evidence_trees.specs.HashTrees.{IsTreeOf, IsWayFrom, AreListsOf};

use crate::finding::place_of;
use crate::leaf_lists::LeafLists;
use crate::leaves::leaves_of;
use crate::nodes::raise;
use crate::values::HashValues;
use digests::{Alg, Digest};
use std::alloc::{AllocError, Global};
use std::marker::Model;

/// A hash tree over digests by one algorithm (RFC 4998 4.2): the different ones are its leaves, in ascending order, and
/// each two neighbours of a level have a node on the next one, where an odd one at the end stands alone.
///
/// Contracts see the algorithm, the leaves and the root.
#[derive(Debug, Drop)]
pub struct Tree {
    alg: Alg,
    // The leaves, and then each level above them, up to the root.
    nodes: HashValues,
    // How many leaves there are.
    leaves: usize,
    // How many levels are above the leaves.
    height: usize,
}

impl Model for Tree {
    ghost use Rattle.std.specs.Prelude.{◌-◌, [], length, take, slice_index_or};
    ghost use Rattle.evidence_trees.specs.HashTrees.{HashTree};
    ghost use Rattle.evidence_trees.specs.Climbing.{AreLevels};

    ghost Value = { HashTree };

    ghost view = { λ t. record {
      algorithm = t.alg;
      leaves = take t.leaves t.nodes.values;
      root = slice_index_or t.nodes.values (length t.nodes.values - 1) [];
    } };

    ghost invariant = { λ t. AreLevels t.alg t.nodes t.leaves t.height };
}

// How many nodes a tree over so many leaves has.
fn nodes_over(leaves: usize) -> usize {
    let mut all = leaves;
    let mut level = leaves;
    while level > 1 {
        level -= level / 2;
        all = all.saturating_add(level);
    }
    all
}

impl Tree {
    /// The tree over these digests by one algorithm, of which equal ones are one leaf. It takes memory for two digests
    /// a leaf and one a level, and while it sorts for an index of the digests.
    pub fn of(alloc: Global, alg: Alg, leaves: &[Digest]) -> Result<Tree, AllocError>
        // There is a digest.
        requires some { 0 < length leaves.now }
        // All are by this algorithm.
        requires algorithm { All (λ d. alg_of d ≡ alg) leaves.now }
        // It is the tree over them: its leaves are the different ones, and its root is theirs. Only a refusal of memory
        // is an error.
        ensures { IfOk result (IsTreeOf alg (map octets_of leaves.now)) }
    {
        let mut nodes = leaves_of(alloc, alg, leaves, nodes_over(leaves.len()))?;
        let leaves = nodes.len();
        let height = raise(alg, &mut nodes)?;
        Ok(Tree {
            alg,
            nodes,
            leaves,
            height,
        })
    }

    /// The root: what an archive time-stamp over the leaves is on.
    pub fn root(&self) -> Digest
        // It is by the algorithm of the tree.
        ensures algorithm { alg_of result ≡ self.now.algorithm }
        // It has the octets of the root.
        ensures octets { octets_of result ≡ self.now.root }
    {
        match Digest::given(self.alg, self.nodes.get(self.nodes.len() - 1)) {
            Some(root) => root,
            None => unreachable!(),
        }
    }

    /// The lists of hash values that lead from a leaf to the root (a reducedHashtree, RFC 4998 4.2), each of one value:
    /// the leaf, and then on each level the neighbour with which its node makes a pair, where there is one. `None` if
    /// the digest is no leaf. It allocates nothing.
    pub fn lists_of(&self, leaf: &Digest) -> Option<LeafLists<'_>>
        // Returns lists exactly if the digest is by the algorithm of the tree, and a leaf.
        ensures some { IsSome result
            ↔ (alg_of leaf.now ≡ self.now.algorithm) × Contains self.now.leaves (octets_of leaf.now) }
        // Their values are the leaf and its neighbours on the way up, and no others.
        ensures way { IfSome result (IsWayFrom self.now (octets_of leaf.now)) }
        // Their root is that of the tree, they cover this leaf and nothing else, and each value is as long as a digest.
        ensures lists { IfSome result (AreListsOf self.now (octets_of leaf.now)) }
    {
        if leaf.alg() != self.alg {
            return None;
        }
        let place = place_of(&self.nodes, self.leaves, leaf.bytes())?;
        Some(LeafLists::of(&self.nodes, place, self.leaves, self.height))
    }
}

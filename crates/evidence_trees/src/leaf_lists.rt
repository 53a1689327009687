ghost use Rattle.std.specs.Prelude.{◌≡◌, ◌≤◌, ◌<◌, ◌+◌, ◌-◌, ◌∷◌, [], length, take, drop, slice_index_or};
ghost use Rattle.std.specs.Prelude.{option_map, MatchOption, IfSome};
ghost use Rattle.std.specs.List.{slice_get};
ghost use Rattle.evidence_trees.specs.HashTrees.{beside};
ghost use Rattle.evidence_trees.specs.Climbing.{neighbours, neighbours_from, HasLevels};

use crate::values::HashValues;
use std::marker::Model;

/// Where a node stands.
#[derive(Clone, Copy, Debug)]
struct Node {
    // How many nodes there are from the first of its level on.
    left: usize,
    // How many nodes its level has.
    count: usize,
    // Its place on the level.
    place: usize,
    // How many levels are above it.
    above: usize,
}

impl Node {
    // The neighbour with which it makes a pair.
    fn beside<'a>(&self, nodes: &'a HashValues) -> Option<&'a [u8]>
        requires place { self.now.place < self.now.count }
        requires count { self.now.count ≤ self.now.left }
        requires left { self.now.left ≤ length nodes.now.values }
        ensures { option_map (λ v. v.now) result ≡ slice_get (take self.now.count
            (drop (length nodes.now.values - self.now.left) nodes.now.values)) (beside self.now.place) }
    {
        let beside = if self.place % 2 == 0 {
            self.place + 1
        } else {
            self.place - 1
        };
        if beside < self.count {
            Some(nodes.get(nodes.len() - self.left + beside))
        } else {
            None
        }
    }
}

// The first neighbour on the way up from a node, and the node on the level above that.
fn next_beside<'a>(nodes: &'a HashValues, from: Node) -> Option<(&'a [u8], Node)>
    requires left { from.left ≤ length nodes.now.values }
    requires levels { HasLevels from.above from.place from.count from.left }
    ensures next { let left = neighbours_from from.above from.place from.count from.left nodes.now.values in
        MatchOption result (left ≡ [])
        (λ x. left ≡ x.0.now ∷ neighbours_from x.1.above x.1.place x.1.count x.1.left nodes.now.values) }
    ensures left { IfSome result (λ x. x.1.left ≤ length nodes.now.values) }
    ensures levels { IfSome result (λ x. HasLevels x.1.above x.1.place x.1.count x.1.left) }
{
    let mut at = from;
    while at.above > 0 {
        let beside = at.beside(nodes);
        at = Node {
            left: at.left - at.count,
            count: at.count - at.count / 2,
            place: at.place / 2,
            above: at.above - 1,
        };
        if let Some(value) = beside {
            return Some((value, at));
        }
    }
    None
}

/// The values of the lists that show that a leaf is of a tree, from the first to the last: each list has one value. The
/// first is the leaf, and then come the nodes with which it makes pairs on the way to the root, where there is one.
///
/// Contracts see these values.
#[derive(Debug, Drop)]
pub struct LeafLists<'a> {
    nodes: &'a HashValues,
    // The leaf, if it is to come.
    leaf: Option<&'a [u8]>,
    // The node whose neighbour comes next.
    at: Node,
}

impl<'a> Model for LeafLists<'a> {
    ghost use Rattle.std.specs.Prelude.{◌++◌, ◌≤◌, List, ℕ, length, option_map};
    ghost use Rattle.std.specs.Option.{option_to_list};
    ghost use Rattle.evidence_trees.specs.Climbing.{neighbours_from, HasLevels};

    ghost Value = { List (List ℕ) };

    ghost view = { λ l. option_to_list (option_map (λ v. v.now) l.leaf)
        ++ neighbours_from l.at.above l.at.place l.at.count l.at.left l.nodes.now.values };

    ghost invariant = { λ l. (l.at.left ≤ length l.nodes.now.values)
        × HasLevels l.at.above l.at.place l.at.count l.at.left };
}

impl<'a> LeafLists<'a> {
    /// The lists of the leaf at a place among so many, which have so many levels above them.
    pub(crate) fn of(
        nodes: &'a HashValues,
        place: usize,
        leaves: usize,
        height: usize,
    ) -> LeafLists<'a>
        requires place { place < length nodes.now.values }
        requires levels { HasLevels height place leaves (length nodes.now.values) }
        ensures { result ≡ slice_index_or nodes.now.values place [] ∷ neighbours height place leaves nodes.now.values }
    {
        let at = Node {
            left: nodes.len(),
            count: leaves,
            place,
            above: height,
        };
        LeafLists {
            nodes,
            leaf: Some(nodes.get(place)),
            at,
        }
    }

    /// The value of the first list and those of the others, or `None` if there is none.
    pub fn next(&self) -> Option<(&'a [u8], LeafLists<'a>)>
        // Gives the values, one after another.
        ensures { MatchOption result (self.now ≡ []) (λ x. self.now ≡ x.0.now ∷ x.1) }
    {
        if let Some(leaf) = self.leaf {
            return Some((
                leaf,
                LeafLists {
                    nodes: self.nodes,
                    leaf: None,
                    at: self.at,
                },
            ));
        }
        let (value, at) = next_beside(self.nodes, self.at)?;
        Some((
            value,
            LeafLists {
                nodes: self.nodes,
                leaf: None,
                at,
            },
        ))
    }
}

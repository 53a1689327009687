ghost use Rattle.std.specs.Prelude.{◌≡◌, ◌<◌, ◌∷◌, length, map, [], IfOk, All, MatchOption};
ghost use Rattle.digests.specs.Algorithms.{length_of};
ghost use Rattle.digests.specs.Digests.{alg_of, octets_of};
ghost use Rattle.check_evidence.specs.Roots.{IsNode};
ghost use Rattle.evidence_trees.specs.Groups.{IsGroup};
ghost use Rattle.evidence_trees.specs.HashTrees.{IsRising};

use crate::leaves::leaves_of;
use crate::values::HashValues;
use digests::{Alg, Digest, digest};
use std::alloc::{AllocError, Global};
use std::marker::Model;

/// Hash values by one algorithm that stand together in one list, as those of a data object group (RFC 4998 4.2): the
/// different ones, in ascending order, and their node, which may be a leaf of a hash tree.
///
/// Contracts see the algorithm, the values and the node.
#[derive(Debug, Drop)]
pub struct Group {
    alg: Alg,
    values: HashValues,
    node: Digest,
}

impl Model for Group {
    ghost use Rattle.std.specs.Prelude.{◌≡◌};
    ghost use Rattle.digests.specs.Algorithms.{length_of};
    ghost use Rattle.digests.specs.Digests.{alg_of, octets_of};
    ghost use Rattle.evidence_trees.specs.Groups.{GroupValue, GoodGroup};

    ghost Value = { GroupValue };

    ghost view = { λ g. record { algorithm = g.alg; values = g.values.values; node = octets_of g.node } };

    ghost invariant = { λ g. (alg_of g.node ≡ g.alg) × (g.values.size ≡ length_of g.alg)
        × GoodGroup (record { algorithm = g.alg; values = g.values.values; node = octets_of g.node }) };
}

// The node of hash values in ascending order of which none stands twice.
fn node_of(alg: Alg, values: &HashValues) -> Digest
    requires some { 0 < length values.now.values }
    requires size { values.now.size ≡ length_of alg }
    requires rising { IsRising values.now.values }
    ensures algorithm { alg_of result ≡ alg }
    ensures node { IsNode alg values.now.values (octets_of result) }
{
    if values.len() > 1 {
        return digest(alg, values.bytes());
    }
    match Digest::given(alg, values.get(0)) {
        Some(node) => node,
        None => unreachable!(),
    }
}

impl Group {
    /// The group of these digests by one algorithm, of which equal ones are one value. It takes memory for the digests,
    /// and while it sorts for an index of them.
    pub fn of(alloc: Global, alg: Alg, digests: &[Digest]) -> Result<Group, AllocError>
        // There is a digest.
        requires some { 0 < length digests.now }
        // All are by this algorithm.
        requires algorithm { All (λ d. alg_of d ≡ alg) digests.now }
        // It is their group. Only a refusal of memory is an error.
        ensures { IfOk result (IsGroup alg (map octets_of digests.now)) }
    {
        let values = leaves_of(alloc, alg, digests, digests.len())?;
        let node = node_of(alg, &values);
        Ok(Group { alg, values, node })
    }

    /// The node: of one value that value, of several the digest of their octets in ascending order, one after the other
    /// (RFC 4998 4.2, step 3).
    pub fn node(&self) -> Digest
        // It is by the algorithm of the group.
        ensures algorithm { alg_of result ≡ self.now.algorithm }
        // It has the octets of the node.
        ensures octets { octets_of result ≡ self.now.node }
    {
        self.node
    }

    /// The values, one after another.
    pub fn values(&self) -> GroupValues<'_>
        // They are those of the group.
        ensures values { result ≡ self.now.values }
        // There is one.
        ensures some { 0 < length self.now.values }
    {
        GroupValues {
            values: &self.values,
            place: 0,
        }
    }
}

/// Values of a group, from one of them on.
///
/// Contracts see these values.
#[derive(Debug, Drop)]
pub struct GroupValues<'a> {
    values: &'a HashValues,
    place: usize,
}

impl<'a> Model for GroupValues<'a> {
    ghost use Rattle.std.specs.Prelude.{List, ℕ, drop};

    ghost Value = { List (List ℕ) };

    ghost view = { λ v. drop v.place v.values.now.values };
}

impl<'a> GroupValues<'a> {
    /// The first value and the others, or `None` if there is none.
    pub fn next(&self) -> Option<(&'a [u8], GroupValues<'a>)>
        ensures { MatchOption result (self.now ≡ []) (λ x. self.now ≡ x.0.now ∷ x.1) }
    {
        if self.place >= self.values.len() {
            return None;
        }
        let others = GroupValues {
            values: self.values,
            place: self.place + 1,
        };
        Some((self.values.get(self.place), others))
    }
}

//! The hash tree over what the renewals of records stand on.
ghost use Rattle.std.specs.Prelude.{◌≡◌, ◌⊎◌, [], IfErr, IfOk, codes, map};
ghost use Rattle.digests.specs.declared.value.Digest.{Digest};
ghost use Rattle.cli_failures.specs.Causes.{Names};
ghost use Rattle.cli_making.specs.Sums.{IsRootOf};
ghost use Rattle.cli_renewing.specs.Footings.{IsTreeOn};
ghost use Rattle.cli_renewing.specs.Steps.{AreOfFirst};

use crate::footing::Footing;
use cli_failures::Failure;
use digests::Digest;
use evidence_trees::Tree;
use std::alloc::{AllocError, Global};

/// The leaves, in their order.
fn leaves_of(alloc: Global, footings: &[Footing]) -> Result<Vec<Digest>, AllocError>
    ensures { IfOk result (λ leaves. leaves.items ≡ map (λ f. f.leaf) footings.now) }
{
    let mut leaves = Vec::new(alloc);
    for footing in footings {
        leaves.push(footing.leaf)?;
    }
    Ok(leaves)
}

/// The tree over the leaves of records. It takes memory for the leaves, and what `Tree::of` takes.
///
/// Errors: `RECORD` is named, if there is none; memory is refused.
pub fn tree_on<'a>(alloc: Global, footings: &[Footing]) -> Result<Tree, Failure<'a>>
    requires { AreOfFirst footings.now }
    // It is the tree over these leaves, with their root.
    ensures found { IfOk result (λ tree. (root : Digest) → IsRootOf tree root
        → IsTreeOn footings.now tree root) }
    // Fails if memory ran out, or there is none.
    ensures refused { IfErr result (λ f. (f ≡ Failure.Memory)
        ⊎ ((footings.now ≡ []) × Names (codes "RECORD") f)) }
{
    let Some(first) = footings.first() else {
        return Err(Failure::Usage("RECORD"));
    };
    let leaves = leaves_of(alloc, footings)?;
    let tree = Tree::of(alloc, first.leaf.alg(), leaves.as_slice())?;
    Ok(tree)
}

//! A token over the root of a hash tree.
ghost use Rattle.std.specs.Prelude.{◌≡◌, IfErr, IfOk};
ghost use Rattle.cli_making.specs.Stamps.{IsStamp, StampsNoTree};

use cli_failures::Failure;
use der_time::Moment;
use evidence_making::stamp_of_root;
use evidence_trees::Tree;

/// A token over the root of a hash tree, and its moment.
#[derive(Clone, Copy)]
pub struct Stamp<'t> {
    /// The tree.
    pub tree: &'t Tree,
    /// The token.
    pub token: &'t [u8],
    /// Its moment.
    pub moment: Moment,
}

/// The stamp of a tree by a token over its root.
///
/// Errors: U7, U8.
pub fn stamp_of<'t, 'a>(tree: &'t Tree, token: &'t [u8]) -> Result<Stamp<'t>, Failure<'a>>
    // It has this tree and this token.
    ensures has { IfOk result (λ s. (s.tree.now ≡ tree.now) × (s.token.now ≡ token.now)) }
    // The token stamps the root of the tree with this moment.
    ensures stamps { IfOk result IsStamp }
    // The token doesn't stamp the root.
    ensures refused { IfErr result (StampsNoTree tree.now token.now) }
{
    let moment = stamp_of_root(token, &tree.root())?;
    Ok(Stamp {
        tree,
        token,
        moment,
    })
}

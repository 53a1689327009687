ghost use Rattle.std.specs.Prelude.{◌≡◌, None};
ghost use Rattle.library_records.specs.Trees.{ReadsTree};
ghost use Rattle.cmsproof_c.specs.Trees.{TellsRoot};

use crate::tree_handle::TreeHandle;
use library_answers::{Answer, DONE, NO_LIST, NO_MEMORY};
use library_records::{read_tree, tell_root};
use std::alloc::Global;

/// Makes the hash tree over digests in a handle, and frees what it held.
#[unsafe(no_mangle)]
pub extern "C" fn cmsproof_tree_make(
    alloc: Global,
    tree: &mut TreeHandle,
    algorithm: &[u8],
    digests: &[u8],
    said: &mut Answer,
) -> u32
    // The handle holds the tree over the digests by the algorithm of this name, or none: no algorithm has the name, the
    // octets are no digests by it, or memory was refused.
    ensures { ReadsTree algorithm.now digests.now tree.new.inside.kept said.new result }
{
    cmsproof_tree_free(alloc, tree);
    keep_in!(alloc, tree: TreeHandle, read_tree(alloc, algorithm, digests, said), said)
}

/// The root of the tree of a handle.
#[unsafe(no_mangle)]
pub extern "C" fn cmsproof_tree_root(
    alloc: Global,
    tree: &mut TreeHandle,
    text: &mut [u8],
    size: &mut usize,
    said: &mut Answer,
) -> u32
    // The octets of the root, or how many they are if there is too little room; without a tree nothing.
    ensures root { TellsRoot tree.old.inside.kept said.new result text.old size.new text.new }
    // The tree stays as it was.
    ensures tree { tree.new.inside.kept ≡ tree.old.inside.kept }
{
    put_by!(alloc, tree: TreeHandle, held => tell_root(&held, text) => size, said)
}

/// Frees the tree of a handle, if it holds one.
#[unsafe(no_mangle)]
pub extern "C" fn cmsproof_tree_free(alloc: Global, tree: &mut TreeHandle)
    // The handle holds none.
    ensures { tree.new.inside.kept ≡ None }
{
    drop(tree.take(alloc));
}

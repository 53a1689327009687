ghost use Rattle.std.specs.Prelude.{◌≡◌, Some, None, IfSome, is_some, option_map};

use crate::parts::Parts;
use crate::tree_seal::TreeSeal;
use evidence_trees::Tree;
use std::alloc::Global;
use std::mem;

/// A hash tree that C holds, or none.
#[repr(C)]
#[derive(Drop)]
pub struct TreeHandle {
    /// The tree, if there is one.
    pub inside: TreeSeal,
    /// Whether there is one.
    pub held: bool,
    ghost right: { held ≡ is_some inside.kept },
}

impl TreeHandle {
    /// The handle of a tree.
    pub(crate) fn of(tree: Box<Tree>) -> TreeHandle
        ensures { result.inside.kept ≡ Some tree.value }
    {
        TreeHandle {
            inside: TreeSeal::of_parts(Parts::of(tree)),
            held: true,
        }
    }

    /// The handle of this tree, if there is memory.
    pub(crate) fn keep(alloc: Global, tree: Tree) -> Option<TreeHandle>
        ensures { IfSome result (λ h. h.inside.kept ≡ Some tree) }
    {
        let Ok(kept) = Box::new(alloc, tree) else {
            return None;
        };
        Some(TreeHandle::of(kept))
    }

    /// The tree, if there is one; the handle then holds none.
    pub(crate) fn take(&mut self, alloc: Global) -> Option<Box<Tree>>
        ensures taken { option_map (λ b. b.value) result ≡ self.old.inside.kept }
        ensures none { self.new.inside.kept ≡ None }
    {
        let none = TreeHandle {
            inside: TreeSeal::empty(),
            held: false,
        };
        let TreeHandle { inside, held } = mem::replace(self, none);
        if held {
            Some(inside.into_parts(alloc).into_box())
        } else {
            None
        }
    }
}

ghost use Rattle.std.specs.Prelude.{◌≡◌, Option, Some, None, true, is_some};
ghost use Rattle.std.specs.Coded.{coded_option};
ghost use Rattle.evidence_trees.specs.contracts.tree.Tree.{the_row};
ghost use Rattle.cmsproof_c.specs.Kept.{kept_owns};

use crate::parts::Parts;
use evidence_trees::Tree;
use std::alloc::Global;
use std::marker::Model;

/// A box of a hash tree, or nothing. Its field names no other type, so that C can hold it.
#[repr(C)]
#[derive(Drop)]
pub struct TreeSeal {
    at: *mut u8,
    /// The tree that the memory behind it holds.
    pub ghost kept: { Option the_row.Denot } by { coded_option the_row.coded },
}

impl Model for TreeSeal {
    ghost also_owns = { λ s. kept_owns the_row s.at s.kept };
}

impl TreeSeal {
    /// A seal that owns nothing.
    pub(crate) fn empty() -> TreeSeal
        ensures { result.kept ≡ None }
    {
        TreeSeal {
            at: std::ptr::null_mut(),
        }
    }

    /// A seal that owns what a box owned.
    pub(crate) fn of_parts(parts: Parts<Tree, Global>) -> TreeSeal
        ensures { result.kept ≡ Some parts.value }
    {
        let Parts { ptr, alloc: _ } = parts;
        TreeSeal { at: ptr as *mut u8 }
    }

    /// What the box owned.
    pub(crate) fn into_parts(self, alloc: Global) -> Parts<Tree, Global>
        requires { is_some self.kept ≡ true }
        ensures { Some result.value ≡ self.kept }
    {
        let TreeSeal { at } = self;
        Parts {
            ptr: at as *mut Tree,
            alloc,
        }
    }
}

unsafe impl Send for TreeSeal {}

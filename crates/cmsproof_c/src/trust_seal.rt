ghost use Rattle.std.specs.Prelude.{◌≡◌, Option, Some, None, true, is_some};
ghost use Rattle.std.specs.Coded.{coded_option};
ghost use Rattle.library_calls.specs.contracts.held.HeldTrust.{the_row};
ghost use Rattle.cmsproof_c.specs.Kept.{kept_owns};

use crate::parts::Parts;
use library_calls::HeldTrust;
use std::alloc::Global;
use std::marker::Model;

/// A box of a trust list, or nothing. Its field names no other type, so that C can hold it.
#[repr(C)]
#[derive(Drop)]
pub struct TrustSeal {
    at: *mut u8,
    /// The list that the memory behind it holds.
    pub ghost kept: { Option the_row.Denot } by { coded_option the_row.coded },
}

impl Model for TrustSeal {
    ghost also_owns = { λ s. kept_owns the_row s.at s.kept };
}

impl TrustSeal {
    /// A seal that owns nothing.
    pub(crate) fn empty() -> TrustSeal
        ensures { result.kept ≡ None }
    {
        TrustSeal {
            at: std::ptr::null_mut(),
        }
    }

    /// A seal that owns what a box owned.
    pub(crate) fn of_parts(parts: Parts<HeldTrust, Global>) -> TrustSeal
        ensures { result.kept ≡ Some parts.value }
    {
        let Parts { ptr, alloc: _ } = parts;
        TrustSeal { at: ptr as *mut u8 }
    }

    /// What the box owned.
    pub(crate) fn into_parts(self, alloc: Global) -> Parts<HeldTrust, Global>
        requires { is_some self.kept ≡ true }
        ensures { Some result.value ≡ self.kept }
    {
        let TrustSeal { at } = self;
        Parts {
            ptr: at as *mut HeldTrust,
            alloc,
        }
    }
}

// A list never changes once it was read, its owners are counted, and each has digests of its own.
unsafe impl Send for TrustSeal {}

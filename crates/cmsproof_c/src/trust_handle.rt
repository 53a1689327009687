ghost use Rattle.std.specs.Prelude.{◌≡◌, Some, None, IfSome, is_some, option_map};

use crate::parts::Parts;
use crate::trust_seal::TrustSeal;
use library_calls::HeldTrust;
use std::alloc::Global;
use std::mem;
use trust_lists::Trust;

/// A trust list that C holds, or none.
#[repr(C)]
#[derive(Drop)]
pub struct TrustHandle {
    /// The list, if there is one.
    pub inside: TrustSeal,
    /// Whether there is one.
    pub held: bool,
    ghost right: { held ≡ is_some inside.kept },
}

impl TrustHandle {
    /// The handle of a list.
    pub(crate) fn of(list: Box<HeldTrust>) -> TrustHandle
        ensures { result.inside.kept ≡ Some list.value }
    {
        TrustHandle {
            inside: TrustSeal::of_parts(Parts::of(list)),
            held: true,
        }
    }

    /// The handle of a list that nobody else holds, if there is memory.
    pub(crate) fn keep(alloc: Global, list: Trust) -> Option<TrustHandle>
        ensures { IfSome result (λ h. h.inside.kept ≡ Some list) }
    {
        let held = HeldTrust::new(alloc, list)?;
        let Ok(kept) = Box::new(alloc, held) else {
            return None;
        };
        Some(TrustHandle::of(kept))
    }

    /// Another handle of this list, if there is memory.
    pub(crate) fn share(alloc: Global, list: &HeldTrust) -> Option<TrustHandle>
        ensures { IfSome result (λ h. h.inside.kept ≡ Some list.now) }
    {
        let other = list.share()?;
        let Ok(kept) = Box::new(alloc, other) else {
            return None;
        };
        Some(TrustHandle::of(kept))
    }

    /// The list, if there is one; the handle then holds none.
    pub(crate) fn take(&mut self, alloc: Global) -> Option<Box<HeldTrust>>
        ensures taken { option_map (λ b. b.value) result ≡ self.old.inside.kept }
        ensures none { self.new.inside.kept ≡ None }
    {
        let none = TrustHandle {
            inside: TrustSeal::empty(),
            held: false,
        };
        let TrustHandle { inside, held } = mem::replace(self, none);
        if held {
            Some(inside.into_parts(alloc).into_box())
        } else {
            None
        }
    }
}

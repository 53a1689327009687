//! A trust list as a handle holds it: with what is kept of it from file to file.
ghost use Rattle.std.specs.Prelude.{◌≡◌, IfSome};
ghost use Rattle.check_verdict.specs.KeptDigests.{AreDigestsOf};
ghost use Rattle.check_fit.specs.Fitting.{with_sha1};

use check_fit::Policy;
use check_verdict::{Checker, KeptDigests};
use std::alloc::Global;
use std::marker::Model;
use std::sync::Arc;
use trust_lists::Trust;

/// A trust list, which may have other owners, and the digests of certificates of its entries that checks under it
/// computed last: a certificate that file after file names is hashed once. They are of this list, and no other owner
/// has them.
///
/// Contracts see the entries of the list, in its order.
#[derive(Drop)]
pub struct HeldTrust {
    list: Arc<Trust>,
    kept: KeptDigests,
}

impl Model for HeldTrust {
    ghost use Rattle.std.specs.Prelude.{List};
    ghost use Rattle.trust_lists.specs.Entries.{EntryValue};
    ghost use Rattle.check_verdict.specs.KeptDigests.{AreDigestsOf};

    ghost Value = { List EntryValue };

    ghost view = { λ h. h.list.value };

    ghost invariant = { λ h. AreDigestsOf h.list.value h.kept };
}

impl HeldTrust {
    /// A list that nobody else owns, with no digest, if there is memory.
    pub fn new(alloc: Global, list: Trust) -> Option<HeldTrust>
        ensures { IfSome result (λ held. held ≡ list) }
    {
        let Ok(list) = Arc::new(alloc, list) else {
            return None;
        };
        Some(HeldTrust {
            list,
            kept: KeptDigests::none(),
        })
    }

    /// The same list, for another owner, if there is memory.
    pub fn share(&self) -> Option<HeldTrust>
        ensures { IfSome result (λ held. held ≡ self.now) }
    {
        let Ok(list) = Arc::try_clone(&self.list) else {
            return None;
        };
        Some(HeldTrust {
            list,
            kept: self.kept,
        })
    }

    /// The list.
    pub fn list(&self) -> &Trust
        ensures { result.now ≡ self.now }
    {
        &self.list
    }

    /// What a check under it goes by, with the digests.
    pub(crate) fn checker(&self, sha1: bool) -> Checker<'_>
        ensures { result ≡ record { trust = self.now; policy = with_sha1 sha1 } }
    {
        Checker::with(&self.list, Policy::with_sha1(sha1), self.kept)
    }

    /// Keeps the digests that a check has now.
    pub(crate) fn keep(&mut self, kept: KeptDigests)
        requires { AreDigestsOf self.old kept }
        ensures { self.new ≡ self.old }
    {
        self.kept = kept;
    }
}

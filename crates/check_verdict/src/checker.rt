//! What a check goes by, apart from the verifier, which each question changes.
ghost use Rattle.std.specs.Prelude.{◌≡◌, map};
ghost use Rattle.check_verdict.specs.Beside.{beside};
ghost use Rattle.check_verdict.specs.KeptDigests.{AreDigestsOf};

use crate::certificates::{Authorities, Recent, Signers};
use crate::hashed::{Hashed, KeptDigests};
use crate::trusted::Trusted;
use check_fit::Policy;
use der_time::Moment;
use std::marker::Model;
use trust_lists::Trust;

/// What a check goes by: whom its user trusts, and which algorithms are allowed; and what is kept of the trusted
/// entries, so that file after file can be judged by one `Checker`: the digests of their certificates that were
/// computed last, and the certificates of signers and of authorities that were read last. All that is kept is of this
/// list, and it changes no answer.
///
/// Contracts see a `CheckerValue` (`specs/Checkers.antt`): the entries of the list, in its order, and the policy.
#[derive(Debug, Drop)]
pub struct Checker<'l> {
    policy: Policy,
    /// The trust list, and digests of certificates of its entries.
    pub(crate) hashed: Hashed<'l>,
    /// Certificates of entries of signers.
    pub(crate) signers: Recent<'l, Signers>,
    /// Certificates of entries of authorities, apart from those of signers: where each signer has another certificate,
    /// those of the authorities stay.
    pub(crate) authorities: Recent<'l, Authorities>,
}

impl<'l> Model for Checker<'l> {
    ghost use Rattle.std.specs.Prelude.{◌≡◌};
    ghost use Rattle.check_verdict.specs.Checkers.{CheckerValue};

    ghost Value = { CheckerValue };

    ghost view = { λ c. record { trust = c.hashed; policy = c.policy } };

    ghost invariant = { λ c. (c.signers ≡ c.hashed) × (c.authorities ≡ c.hashed) };
}

impl<'l> Checker<'l> {
    /// With nothing kept.
    pub fn of(trust: &'l Trust, policy: Policy) -> Checker<'l>
        // It goes by this list and this policy.
        ensures { result ≡ record { trust = trust.now; policy = policy } }
    {
        Checker::with(trust, policy, KeptDigests::none())
    }

    /// With the digests that another `Checker` of the list kept, where the list is not borrowed from check to check.
    pub fn with(trust: &'l Trust, policy: Policy, kept: KeptDigests) -> Checker<'l>
        // They are of this list.
        requires { AreDigestsOf trust.now kept }
        // It goes by this list and this policy.
        ensures { result ≡ record { trust = trust.now; policy = policy } }
    {
        Checker::over(Trusted::of(trust), policy, kept)
    }

    /// Beside a record that shows the file by this moment (RFC 4998 5.3): an entry of an authority counts only if it
    /// holds then too, and for no token that is later. Nothing is kept yet.
    pub fn beside(trust: &'l Trust, policy: Policy, shown: Moment) -> Checker<'l>
        // It goes by the entries of this list as they count beside the record, and by this policy.
        ensures { result ≡ record { trust = map (beside shown) trust.now; policy = policy } }
    {
        Checker::over(Trusted::beside(trust, shown), policy, KeptDigests::none())
    }

    // By entries as they count, with digests that were kept of their certificates.
    fn over(trusted: Trusted<'l>, policy: Policy, kept: KeptDigests) -> Checker<'l>
        requires { AreDigestsOf trusted kept }
        ensures { result ≡ record { trust = trusted.entry; policy = policy } }
    {
        Checker {
            policy,
            signers: Recent::of(trusted.again()),
            authorities: Recent::of(trusted.again()),
            hashed: Hashed::of(trusted, kept),
        }
    }

    /// The digests that are kept at the end.
    pub fn into_kept(self) -> KeptDigests
        // They are of the list that this went by.
        ensures { AreDigestsOf self.entry.trust result }
    {
        self.hashed.kept()
    }

    /// The algorithms that the user allows.
    pub fn policy(&self) -> Policy
        // It is the policy that this goes by.
        ensures { result ≡ self.now.policy }
    {
        self.policy
    }

    /// The entries that the user trusts, as they count.
    pub(crate) fn trust(&self) -> Trusted<'l>
        ensures { result ≡ self.now.trust }
    {
        self.hashed.trust()
    }
}

//! The certificates of trusted entries that were read last.
ghost use Rattle.std.specs.Prelude.{◌≡◌, ◌%◌, List, Some, None, IfSome, slice_set};
ghost use Rattle.std.specs.List.{All};
ghost use Rattle.trust_lists.specs.Entries.{EntryValue};
ghost use Rattle.cert_types.specs.CertificateValue.{CertificateValue};
ghost use Rattle.check_verdict.specs.KeptCertificates.{IsOfEntry};
ghost use Rattle.check_verdict.specs.declared.certificates.TheConstants.{SLOTS};

use crate::trusted::Trusted;
use cert_types::Certificate;
use std::marker::{Model, PhantomData};

/// How many certificates are kept of a role.
const SLOTS: usize = 4;

// The values that were kept last, at most as many as there are slots. They are of any type, since of an array of what
// can't be copied the toolchain proves something only if its elements are of a type parameter.
#[derive(Debug, Drop)]
struct Slots<T> {
    slots: [Option<T>; SLOTS],
    // The slot that is taken next, or as many as there are for the first.
    next: usize,
}

impl<T> Slots<T> {
    // With none.
    fn none() -> Slots<T>
        ensures { All (λ slot. slot ≡ None) result.slots }
    {
        Slots {
            slots: Default::default(),
            next: 0,
        }
    }

    // Each slot.
    fn all(&self) -> &[Option<T>]
        ensures { result.now ≡ self.now.slots }
    {
        &self.slots[..]
    }
}

impl<T: Drop> Slots<T> {
    // Keeps a value, instead of the one that was kept first.
    fn keep(&mut self, value: T)
        ensures { self.new.slots ≡ slice_set self.old.slots (self.old.next % SLOTS) (Some value) }
    {
        let at = self.next % SLOTS;
        self.slots[at] = Some(value);
        self.next = at + 1;
    }
}

// The certificate of the entry at this place.
#[derive(Debug, Drop)]
struct Kept<'l> {
    place: usize,
    certificate: Certificate<'l>,
}

/// What is known of each certificate that is kept of a role, as a type.
pub(crate) trait Known {
    // That.
    ghost known: { CertificateValue → Type 0 };
}

/// Of signers: no more than whose it is.
#[derive(Clone, Copy, Debug)]
pub(crate) struct Signers;

impl Known for Signers {
    ghost use Rattle.std.specs.Prelude.{⊤};

    ghost known = { λ _. ⊤ };
}

/// Of authorities: its key is for time-stamping alone.
#[derive(Clone, Copy, Debug)]
pub(crate) struct Authorities;

impl Known for Authorities {
    ghost use Rattle.cert_types.specs.Purposes.{IsStampingOnly};

    ghost known = { IsStampingOnly };
}

/// The last certificates that were kept of a role, at most four, each by the place of its entry in a trust list: that
/// of an entry for many signers is read once. What is kept changes no answer.
///
/// Contracts see the entries of the list, in its order.
#[derive(Debug, Drop)]
pub(crate) struct Recent<'l, K: Known> {
    trust: Trusted<'l>,
    kept: Slots<Kept<'l>>,
    of: PhantomData<K>,
}

impl<'l, K: Known> Model for Recent<'l, K> {
    ghost use Rattle.std.specs.Prelude.{List};
    ghost use Rattle.trust_lists.specs.Entries.{EntryValue};
    ghost use Rattle.check_verdict.specs.KeptCertificates.{AreKept};

    ghost Value = { List EntryValue };

    ghost view = { λ r. r.trust };

    ghost invariant = { λ r. AreKept K.known r.trust r.kept.slots };
}

impl<'l, K: Known> Recent<'l, K> {
    /// With none.
    pub fn of(trust: Trusted<'l>) -> Recent<'l, K>
        ensures { result ≡ trust.entry }
    {
        Recent {
            trust,
            kept: Slots::none(),
            of: PhantomData,
        }
    }

    /// The certificate of the entry at this place, if it is kept.
    pub fn find(&self, place: usize) -> Option<&Certificate<'l>>
        ensures { IfSome result (λ c. IsOfEntry self.now place c.now × K.known c.now) }
    {
        for slot in self.kept.all() {
            if let Some(kept) = slot
                && kept.place == place
            {
                return Some(&kept.certificate);
            }
        }
        None
    }

    /// Keeps the certificate of the entry at this place, instead of the one that was kept first.
    pub fn keep(&mut self, place: usize, certificate: Certificate<'l>)
        requires entry { IsOfEntry self.old place certificate }
        requires known { K.known certificate }
        ensures { self.new ≡ self.old }
    {
        self.kept.keep(Kept { place, certificate });
    }
}

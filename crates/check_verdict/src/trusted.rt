//! The trusted entries as they count in a check.
ghost use Rattle.std.specs.Prelude.{◌≡◌, ◌<◌, ◌+◌, ◌^◌, ◌↔◌, length, map, Some, IsTrue};
ghost use Rattle.std.specs.List.{slice_get};
ghost use Rattle.cms_types.specs.Fields.{sid_value};
ghost use Rattle.trust_lists.specs.Marks.{IsNext};
ghost use Rattle.check_names.specs.Naming.{Matches};
ghost use Rattle.check_verdict.specs.Trusted.{Holds};
ghost use Rattle.check_verdict.specs.Beside.{beside, counted};

use crate::asking::holds_under;
use crate::candidates::next_candidate;
use cert_types::Certificate;
use cms_types::SignerId;
use der_time::Moment;
use std::marker::Model;
use trust_lists::{Entry, Role, Trust};

// Whether an entry with this certificate holds at a moment, as it counts beside a record that shows the file by
// another.
fn holds_beside(entry: &Entry, certificate: &Certificate, shown: Moment, moment: Moment) -> bool
    requires { certificate.now ≡ entry.now.certificate }
    ensures { IsTrue result ↔ Holds (beside shown entry.now) moment }
{
    match entry.role() {
        Role::Signer => holds_under(entry, certificate, moment),
        Role::Tsa => {
            moment <= shown
                && holds_under(entry, certificate, shown)
                && holds_under(entry, certificate, moment)
        }
    }
}

/// A trusted entry as it counts: as ever, or beside a record that shows the file by a moment.
///
/// Contracts see an `EntryValue`, that of `specs/Beside.antt` if there is a record.
#[derive(Drop)]
pub(crate) struct Counted<'l> {
    entry: &'l Entry,
    shown: Option<Moment>,
}

impl<'l> Model for Counted<'l> {
    ghost use Rattle.trust_lists.specs.Entries.{EntryValue};
    ghost use Rattle.check_verdict.specs.Beside.{counted};

    ghost Value = { EntryValue };

    ghost view = { λ c. counted c.shown c.entry.now };
}

impl<'l> Counted<'l> {
    /// What the certificate is trusted for.
    pub fn role(&self) -> Role
        ensures { result ≡ self.now.role }
    {
        self.entry.role()
    }

    /// The certificate, which is read again at each call.
    pub fn certificate(&self) -> Certificate<'l>
        ensures { result ≡ self.now.certificate }
    {
        self.entry.certificate()
    }

    /// Whether it holds at a moment, by its certificate, which was read.
    pub fn holds_under(&self, certificate: &Certificate, moment: Moment) -> bool
        requires { certificate.now ≡ self.now.certificate }
        ensures { IsTrue result ↔ Holds self.now moment }
    {
        match self.shown {
            Some(shown) => holds_beside(self.entry, certificate, shown, moment),
            None => holds_under(self.entry, certificate, moment),
        }
    }
}

/// The entries of a trust list as they count.
///
/// Contracts see the entries, in the list's order.
#[derive(Debug, Drop)]
pub(crate) struct Trusted<'l> {
    list: &'l Trust,
    shown: Option<Moment>,
}

impl<'l> Model for Trusted<'l> {
    ghost use Rattle.std.specs.Prelude.{List};
    ghost use Rattle.trust_lists.specs.Entries.{EntryValue};
    ghost use Rattle.check_verdict.specs.Beside.{counting};

    ghost Value = { List EntryValue };

    ghost view = { λ t. counting t.shown t.list.now };
}

impl<'l> Trusted<'l> {
    /// As ever.
    pub fn of(list: &'l Trust) -> Trusted<'l>
        ensures { result ≡ list.now }
    {
        Trusted { list, shown: None }
    }

    /// Beside a record that shows the file by this moment.
    pub fn beside(list: &'l Trust, shown: Moment) -> Trusted<'l>
        ensures { result ≡ map (beside shown) list.now }
    {
        Trusted {
            list,
            shown: Some(shown),
        }
    }

    /// The same again.
    pub fn again(&self) -> Trusted<'l>
        ensures { result ≡ self.now }
    {
        Trusted {
            list: self.list,
            shown: self.shown,
        }
    }

    /// The entry at a place.
    pub fn entry(&self, place: usize) -> Counted<'l>
        requires { place < length self.now }
        ensures there { slice_get self.now place ≡ Some result }
        ensures room { place + 1 < 2 ^ 64 }
    {
        Counted {
            entry: &self.list.entries()[place],
            shown: self.shown,
        }
    }

    /// The place of the next entry of this role, from this place on, whose certificate a signer's identifier can match:
    /// that of `next_candidate`.
    pub fn next(&self, role: Role, sid: &SignerId, from: usize) -> Option<usize>
        ensures { IsNext (λ e. (e.role ≡ role) × Matches (sid_value sid.now) e.certificate) self.now from result }
    {
        next_candidate(self.list, role, sid, from)
    }
}

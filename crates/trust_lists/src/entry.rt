ghost use Rattle.std.specs.Prelude.{◌≡◌, ℕ};
ghost use Rattle.trust_lists.specs.Marks.{HasMark};

use crate::marks::{MarkBy, Marks};
use crate::role::Role;
use cert_types::Certificate;
use der_time::Moment;
use std::marker::Model;

/// An entry of a trust list: a certificate that is trusted in a role, from a moment and until a moment, each of which
/// may be absent. It owns the certificate's octets, and keeps the marks of what the certificate holds.
///
/// Contracts see an `EntryValue` (`specs/Entries.antt`).
#[derive(Debug, Drop)]
pub struct Entry {
    pub(crate) role: Role,
    pub(crate) from: Option<Moment>,
    pub(crate) until: Option<Moment>,
    pub(crate) octets: Vec<u8>,
    pub(crate) marks: Marks,
}

impl Model for Entry {
    ghost use Rattle.std.specs.Prelude.{◌≡◌, false};
    ghost use Rattle.cert_types.specs.CertificateValue.{EncodesCertificate};
    ghost use Rattle.trust_lists.specs.Entries.{EntryValue};
    ghost use Rattle.trust_lists.specs.Certificates.{certificate_of};
    ghost use Rattle.trust_lists.specs.Periods.{is_backwards};
    ghost use Rattle.trust_lists.specs.Marks.{AreMarks};

    ghost Value = { EntryValue };

    ghost view = { λ e.
        record { role = e.role; from = e.from; until = e.until; certificate = certificate_of e.octets.items } };

    ghost invariant = { λ e. EncodesCertificate e.octets.items (certificate_of e.octets.items)
        × (is_backwards e.from e.until ≡ false) × AreMarks (certificate_of e.octets.items) e.marks };
}

impl Entry {
    /// What the certificate is trusted for.
    pub fn role(&self) -> Role
        ensures { result ≡ self.now.role }
    {
        self.role
    }

    /// The first moment at which it is trusted, if there is one.
    pub fn from(&self) -> Option<Moment>
        ensures { result ≡ self.now.from }
    {
        self.from
    }

    /// The last moment at which it is trusted, if there is one.
    pub fn until(&self) -> Option<Moment>
        ensures { result ≡ self.now.until }
    {
        self.until
    }

    /// The certificate, which is read again at each call.
    pub fn certificate(&self) -> Certificate<'_>
        ensures { result ≡ self.now.certificate }
    {
        let Ok(certificate) = Certificate::read(&self.octets) else {
            unreachable!();
        };
        certificate
    }

    // The mark of its certificate, if that has one; otherwise any number. No certificate is read.
    pub(crate) fn mark(&self, by: MarkBy) -> u64
        ensures { (mark : ℕ) → HasMark by mark self.now → result ≡ mark }
    {
        match by {
            MarkBy::Serial => self.marks.serial,
            MarkBy::KeyId => match self.marks.key_id {
                Some(mark) => mark,
                None => self.marks.serial,
            },
        }
    }
}

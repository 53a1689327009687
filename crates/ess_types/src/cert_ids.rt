ghost use Rattle.std.specs.Prelude.{◌≡◌};
ghost use Rattle.der_core.specs.Reading.{Gives};
ghost use Rattle.ess_types.specs.SigningCertificateReading.{plain_ids_in, ids_in};
ghost use Rattle.ess_types.specs.SigningCertificateValue.{first_id};

use crate::cert_id::CertId;
use der_core::tags::SEQUENCE;
use der_core::{Cursor, Fault};
use der_lists::{Item, next_item, scan_items};
use std::marker::Model;

impl<'a> Item<'a> for CertId<'a> {
    ghost use Rattle.der_core.specs.Reading.{within};
    ghost use Rattle.der_lists.specs.Shorter.{within_shorter};
    ghost use Rattle.ess_types.specs.SigningCertificateReading.{cert_id_in};

    ghost reading = { within 0x30 cert_id_in };

    ghost shorter = { within_shorter 0x30 cert_id_in };

    fn take(list: &mut Cursor<'a>) -> Result<CertId<'a>, Fault> {
        CertId::fields_of_v2(list.enter(SEQUENCE)?)
    }
}

// An identifier of version 1, for the check of a list of them.
#[derive(Debug, Drop)]
struct PlainId<'a> {
    id: CertId<'a>,
}

impl<'a> Model for PlainId<'a> {
    ghost use Rattle.ess_types.specs.SigningCertificateValue.{CertIdValue};

    ghost Value = { CertIdValue };

    ghost view = { λ p. p.id };
}

impl<'a> Item<'a> for PlainId<'a> {
    ghost use Rattle.der_core.specs.Reading.{within};
    ghost use Rattle.der_lists.specs.Shorter.{within_shorter};
    ghost use Rattle.ess_types.specs.SigningCertificateReading.{plain_id_in};

    ghost reading = { within 0x30 plain_id_in };

    ghost shorter = { within_shorter 0x30 plain_id_in };

    fn take(list: &mut Cursor<'a>) -> Result<PlainId<'a>, Fault> {
        let id = CertId::fields_of_v1(list.enter(SEQUENCE)?)?;
        Ok(PlainId { id })
    }
}

/// Identifiers of certificates, as a view of the octets of a list of them. Those of version 1 are read again as
/// identifiers of version 2, because their octets encode those too.
///
/// Contracts see the list of their `CertIdValue`s in the order in which they occur.
#[derive(Debug, Drop)]
pub(crate) struct CertIds<'a> {
    list: Cursor<'a>,
}

impl<'a> Model for CertIds<'a> {
    ghost use Rattle.std.specs.Prelude.{List};
    ghost use Rattle.der_core.specs.Reading.{within};
    ghost use Rattle.der_lists.specs.Items.{all_in, IsList};
    ghost use Rattle.ess_types.specs.SigningCertificateReading.{cert_id_in};
    ghost use Rattle.ess_types.specs.SigningCertificateValue.{CertIdValue};

    ghost Value = { List CertIdValue };

    ghost view = { λ c. all_in (within 0x30 cert_id_in) c.list };

    ghost invariant = { λ c. IsList (within 0x30 cert_id_in) c.list };
}

impl<'a> CertIds<'a> {
    // The identifiers of version 1 from the cursor to the end of its body.
    pub(crate) fn read_v1(list: Cursor<'a>) -> Result<CertIds<'a>, Fault>
        ensures { Gives (λ c. c) result (plain_ids_in list.entry) }
    {
        // Named for the proof.
        let _octets = list.rest();
        scan_items::<PlainId>(&list)?;
        Ok(CertIds { list })
    }

    // The identifiers of version 2 from the cursor to the end of its body.
    pub(crate) fn read_v2(list: Cursor<'a>) -> Result<CertIds<'a>, Fault>
        ensures { Gives (λ c. c) result (ids_in list.entry) }
    {
        scan_items::<CertId>(&list)?;
        Ok(CertIds { list })
    }

    // The first identifier.
    pub(crate) fn first(&self) -> Option<CertId<'a>>
        ensures { result ≡ first_id self.now }
    {
        let (first, _others) = next_item::<CertId>(&self.list)?;
        Some(first)
    }
}

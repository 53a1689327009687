ghost use Rattle.std.specs.Prelude.{◌≡◌};
ghost use Rattle.der_core.specs.Reading.{Gives};
ghost use Rattle.ess_types.specs.SigningCertificateReading.{issuer_serial_in};

use der_core::tags::SEQUENCE;
use der_core::{Cursor, Fault, Int};
use der_lists::Opaques;
use std::marker::Model;

/// How an identifier names a certificate besides its hash (RFC 5035 4): by names of its issuer and its serial number,
/// as a view.
///
/// Contracts see an `IssuerSerialValue` (`specs/SigningCertificateValue.antt`).
#[derive(Debug, Drop)]
pub struct IssuerSerial<'a> {
    names: Opaques<'a>,
    serial: Int<'a>,
}

impl<'a> Model for IssuerSerial<'a> {
    ghost use Rattle.ess_types.specs.SigningCertificateValue.{IssuerSerialValue};

    ghost Value = { IssuerSerialValue };

    ghost view = { λ i. record { names = i.names; serial = i.serial } };
}

impl<'a> IssuerSerial<'a> {
    // IssuerSerial ::= SEQUENCE { issuer GeneralNames, serialNumber CertificateSerialNumber }
    #[tactic(auto, unfolding(crate::specs::SigningCertificateReading::issuer_serial_in))]
    pub(crate) fn fields_of(mut parts: Cursor<'a>) -> Result<IssuerSerial<'a>, Fault>
        ensures { Gives (λ i. i) result (issuer_serial_in parts.entry) }
    {
        let names = Opaques::read(parts.enter(SEQUENCE)?)?;
        let serial = parts.integer()?;
        parts.end()?;
        Ok(IssuerSerial { names, serial })
    }

    /// The GeneralNames of the issuer, each as a whole element. RFC 5280 4.2.1.6 (`SIZE (1..MAX)`) demands at least
    /// one; this profile doesn't.
    pub fn names(&self) -> &Opaques<'a>
        ensures { result.now ≡ self.now.names }
    {
        &self.names
    }

    /// The serial number of the certificate.
    pub fn serial(&self) -> &Int<'a>
        ensures { result.now ≡ self.now.serial }
    {
        &self.serial
    }
}

//! Versions that the standard requires.
ghost use Rattle.std.specs.Prelude.{◌≡◌};
ghost use Rattle.std.specs.Option.{option_copied};
ghost use Rattle.der_core.specs.Element.{has_tag};
ghost use Rattle.der_core.specs.Lists.{some};
ghost use Rattle.cms_types.specs.Versions.{signer_version, signed_data_version, has_tagged, is_third};

use crate::oids::DATA;
use crate::signed_data::SignedData;
use crate::signer::Signer;
use crate::signer_id::SignerId;
use crate::signers::Signers;
use der_core::octets::{has_tag, is_same};
use der_lists::Opaques;

/// The identifier octets of an attribute certificate of version 1 and of version 2, of a certificate of another format
/// (RFC 5652 10.2.2), and of revocation information of another format (RFC 5652 10.2.1).
const FIRST_ATTRIBUTE_CERTIFICATE: u8 = 0xa1;

const SECOND_ATTRIBUTE_CERTIFICATE: u8 = 0xa2;

const OTHER_CERTIFICATE: u8 = 0xa3;

const OTHER_CRL: u8 = 0xa1;

impl<'a> Signer<'a> {
    /// The version that the standard requires: 1 with issuer and serial number, 3 with a key identifier (RFC 5652 5.3).
    pub fn standard_version(&self) -> u8
        ensures { result ≡ signer_version self.now }
    {
        match self.sid() {
            SignerId::IssuerAndSerial(_, _) => 1,
            SignerId::KeyId(_) => 3,
        }
    }
}

// Whether one of these elements has this identifier.
fn is_one_tagged(tag: u8, elements: &Opaques) -> bool
    ensures { result ≡ some (has_tag tag) elements.now }
{
    let mut left = elements.again();
    while let Some((element, others)) = left.next() {
        if has_tag(element.whole(), tag) {
            return true;
        }
        left = others;
    }
    false
}

// Whether there are elements and one of them has this identifier.
fn has_tagged(tag: u8, elements: Option<&Opaques>) -> bool
    ensures { result ≡ has_tagged tag (option_copied elements.entry) }
{
    match elements {
        Some(elements) => is_one_tagged(tag, elements),
        None => false,
    }
}

// Whether one of the signers states version 3.
fn has_third(signers: &Signers) -> bool
    ensures { result ≡ some is_third signers.now }
{
    let mut left = signers.again();
    while let Some((signer, others)) = left.next() {
        if signer.version() == 3 {
            return true;
        }
        left = others;
    }
    false
}

impl<'a> SignedData<'a> {
    /// The version that the standard requires (RFC 5652 5.1): 5 if it has a certificate or revocation information of
    /// another format; else 4 if it has a version 2 attribute certificate; else 3 if it has a version 1 attribute
    /// certificate, a signer of version 3 or a content that isn't id-data; else 1.
    pub fn standard_version(&self) -> u8
        ensures { result ≡ signed_data_version self.now }
    {
        if has_tagged(OTHER_CERTIFICATE, self.certificates())
            || has_tagged(OTHER_CRL, self.crls())
        {
            5
        } else if has_tagged(SECOND_ATTRIBUTE_CERTIFICATE, self.certificates()) {
            4
        } else if has_tagged(FIRST_ATTRIBUTE_CERTIFICATE, self.certificates())
            || has_third(self.signers())
            || !is_same(self.content_type().bytes(), &DATA)
        {
            3
        } else {
            1
        }
    }
}

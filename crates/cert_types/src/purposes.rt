ghost use Rattle.std.specs.Prelude.{◌≡◌, ◌↔◌, ℕ, List, Some, None, find, IfSome, IsTrue, option_map};
ghost use Rattle.der_core.specs.Element.{el, IsElement};
ghost use Rattle.der_core.specs.Lists.{is_same};
ghost use Rattle.cert_types.specs.Purposes.{extension_of, id_time_stamping, HasKeyId, IsStampingOnly};

use crate::certificate::Certificate;
use crate::distinct::{EXTENDED_KEY_USAGE, SUBJECT_KEY_IDENTIFIER};
use crate::extension::Extension;
use crate::extensions::Extensions;
use der_core::octets::is_same;
use der_core::tags::OCTET_STRING;
use der_core::{Cursor, Flag};

/// The value of an extendedKeyUsage that names id-kp-timeStamping alone (RFC 3161 2.3): a SEQUENCE of that one purpose.
const TIME_STAMPING_ALONE: [u8; 12] = [
    0x30, 0x0a, 0x06, 0x08, 0x2b, 0x06, 0x01, 0x05, 0x05, 0x07, 0x03, 0x08,
];

// The first extension of this kind.
fn first_of<'a>(extensions: &Extensions<'a>, id: &[u8]) -> Option<Extension<'a>>
    ensures { result ≡ find (λ e. is_same e.id id.now) extensions.now }
{
    let mut left = extensions.again();
    while let Some((first, others)) = left.next() {
        if is_same(first.id().bytes(), id) {
            return Some(first);
        }
        left = others;
    }
    None
}

// Whether the octets are those of the SEQUENCE of id-kp-timeStamping alone.
fn names_stamping_alone(octets: &[u8]) -> bool
    ensures { IsTrue result ↔ (octets.now ≡ el 0x30 (el 0x06 id_time_stamping)) }
{
    is_same(octets, &TIME_STAMPING_ALONE)
}

// The contents of the OCTET STRING that all of these octets encode.
fn octet_string<'a>(octets: &'a [u8]) -> Option<&'a [u8]>
    ensures found { IfSome result (λ k. IsElement 4 k.now × (octets.now ≡ el 0x04 k.now)) }
    ensures only { (k : List ℕ) → IsElement 4 k → octets.now ≡ el 0x04 k → option_map (λ x. x.now) result ≡ Some k }
{
    let mut input = Cursor::new(octets, 0);
    let Ok(element) = input.expect(OCTET_STRING) else {
        return None;
    };
    if input.is_empty() {
        Some(element.body)
    } else {
        None
    }
}

impl<'a> Certificate<'a> {
    // The extension of one of the two kinds that a certificate has at most once.
    fn extension(&self, id: &[u8]) -> Option<Extension<'a>>
        ensures { result ≡ extension_of id.now self.now }
    {
        match self.extensions() {
            Some(extensions) => first_of(extensions, id),
            None => None,
        }
    }

    /// The key identifier: the contents of the OCTET STRING in the subjectKeyIdentifier extension (RFC 5280 4.2.1.2).
    /// `None` if there is no such extension, or if its value is not one OCTET STRING.
    pub fn key_id(&self) -> Option<&'a [u8]>
        // A key identifier that is returned is the one that the extension holds.
        ensures found { IfSome result (λ k. HasKeyId self.now k.now) }
        // A key identifier that the extension holds is returned.
        ensures only { (k : List ℕ) → HasKeyId self.now k → option_map (λ x. x.now) result ≡ Some k }
    {
        match self.extension(&SUBJECT_KEY_IDENTIFIER) {
            Some(extension) => octet_string(extension.value()),
            None => None,
        }
    }

    /// Whether the key is for time-stamping alone: the extendedKeyUsage extension is critical, spelled `01 01 ff`, and
    /// names id-kp-timeStamping and nothing else (RFC 5280 4.2.1.12, RFC 3161 2.3).
    pub fn stamping_only(&self) -> bool
        ensures { IsTrue result ↔ IsStampingOnly self.now }
    {
        match self.extension(&EXTENDED_KEY_USAGE) {
            Some(extension) => {
                extension.critical() == Flag::True && names_stamping_alone(extension.value())
            }
            None => false,
        }
    }
}

ghost use Rattle.std.specs.Prelude.{◌≡◌, ◌||◌};
ghost use Rattle.der_core.specs.Reading.{within};
ghost use Rattle.der_lists.specs.Items.{ScansList};
ghost use Rattle.cert_types.specs.ExtensionReading.{extension_in};
ghost use Rattle.cert_types.specs.DistinctExtensions.{is_subject_key_identifier, is_ext_key_usage, is_again};
ghost use Rattle.cert_types.specs.DistinctExtensions.{distinct_in};

use crate::extension::Extension;
use der_core::octets::is_same;
use der_core::tags::SEQUENCE;
use der_core::{Cursor, Fault, Kind};

/// The contents of 2.5.29.14, subjectKeyIdentifier (RFC 5280 4.2.1.2).
pub(crate) const SUBJECT_KEY_IDENTIFIER: [u8; 3] = [0x55, 0x1d, 0x0e];

/// The contents of 2.5.29.37, extendedKeyUsage (RFC 5280 4.2.1.12).
pub(crate) const EXTENDED_KEY_USAGE: [u8; 3] = [0x55, 0x1d, 0x25];

// Whether it is a subjectKeyIdentifier.
fn is_subject_key_identifier(extension: &Extension) -> bool
    ensures { result ≡ is_subject_key_identifier extension.now }
{
    is_same(extension.id().bytes(), &SUBJECT_KEY_IDENTIFIER)
}

// Whether it is an extendedKeyUsage.
fn is_ext_key_usage(extension: &Extension) -> bool
    ensures { result ≡ is_ext_key_usage extension.now }
{
    is_same(extension.id().bytes(), &EXTENDED_KEY_USAGE)
}

// Which of the extensions that may occur once were seen.
#[derive(Clone, Copy)]
struct Seen {
    identifier: bool,
    usage: bool,
}

impl Seen {
    // Whether the extension is the second of its kind.
    fn is_again(self, extension: &Extension) -> bool
        ensures { result ≡ is_again self.identifier self.usage extension.now }
    {
        (self.identifier && is_subject_key_identifier(extension))
            || (self.usage && is_ext_key_usage(extension))
    }

    // What was seen, including this extension.
    fn with(self, extension: &Extension) -> Seen
        ensures identifier { result.identifier ≡ (self.identifier || is_subject_key_identifier extension.now) }
        ensures usage { result.usage ≡ (self.usage || is_ext_key_usage extension.now) }
    {
        Seen {
            identifier: self.identifier || is_subject_key_identifier(extension),
            usage: self.usage || is_ext_key_usage(extension),
        }
    }
}

// Reads the extensions of a certificate to the end of the body, and answers how many there are, or reports the first
// fault that is found.
pub(crate) fn scan_distinct<'a>(all: &Cursor<'a>) -> Result<usize, Fault>
    ensures { ScansList (within 0x30 extension_in) all.now result (distinct_in all.now) }
{
    // There are no more extensions than octets, so the count fits its type.
    let most = all.rest().len();
    let mut list = all.again();
    let mut count = 0;
    let mut seen = Seen {
        identifier: false,
        usage: false,
    };
    while !list.is_empty() {
        let at = list.position();
        let parts = list.enter(SEQUENCE)?;
        let extension = Extension::fields_of(parts)?;
        if seen.is_again(&extension) {
            return Err(Fault::new(Kind::Value, at));
        }
        seen = seen.with(&extension);
        prove!(count < most);
        count += 1;
    }
    Ok(count)
}

ghost use Rattle.std.specs.Prelude.{◌≡◌};

use cms_types::Signers;
use std::marker::Model;

/// What a pass over the octets of a SignedData keeps (RFC 5652 5.1): the type of its content, whether its content is in
/// it, and its signers. It is a view of the buffer that the pass was given.
///
/// Contracts see an `OpenedValue` (`specs/Opening.antt`).
#[derive(Debug, Drop)]
pub struct Opened<'b> {
    content_type: &'b [u8],
    attached: bool,
    signers: Signers<'b>,
}

impl<'b> Model for Opened<'b> {
    ghost use Rattle.cms_stream.specs.Opening.{OpenedValue};

    ghost Value = { OpenedValue };

    ghost view = { λ o. record { content_type = o.content_type.now; attached = o.attached; signers = o.signers } };
}

impl<'b> Opened<'b> {
    // The value with these parts.
    pub(crate) fn new(content_type: &'b [u8], attached: bool, signers: Signers<'b>) -> Opened<'b>
        ensures { result ≡ record { content_type = content_type.now; attached = attached; signers = signers.entry } }
    {
        Opened {
            content_type,
            attached,
            signers,
        }
    }

    /// The contents of the content's type (`eContentType`), an OBJECT IDENTIFIER.
    pub fn content_type(&self) -> &'b [u8]
        ensures { result.now ≡ self.now.content_type }
    {
        self.content_type
    }

    /// Whether the content was in the file: the pass handed its octets on.
    pub fn is_attached(&self) -> bool
        // Whether the content was in the file.
        ensures { result ≡ self.now.attached }
    {
        self.attached
    }

    /// The signers, in the order in which they occur.
    pub fn signers(&self) -> &Signers<'b>
        ensures { result.now ≡ self.now.signers }
    {
        &self.signers
    }
}

use cms_types::CmsFault;
use std::fmt;
use thiserror::Error;

/// Why a token was not attached. `Display` prints the code and the name; of a malformed file the code and the fault.
#[derive(Clone, Copy, Debug, PartialEq, Eq, Error)]
pub enum AttachFault {
    /// A1: the file isn't a ContentInfo that holds a SignedData (RFC 5652 3).
    Malformed(CmsFault),
    /// A2: it has no signer of this number.
    NoSuchSigner,
    /// A3: the token isn't a SignedData with a TSTInfo as its content (RFC 3161 2.4.2).
    TokenMalformed,
    /// A4: the imprint of the token isn't the digest of the signer's signature, or its algorithm isn't known.
    ImprintDiffers,
    /// A5: some length of the new file would exceed 4,294,967,295.
    TooLong,
    /// A6: the sink failed.
    WriteFailed,
}

impl fmt::Display for AttachFault {
    ghost use Rattle.std.specs.Prelude.{Some};
    ghost use Rattle.tsp_requester.specs.AttachFaultTexts.{attach_fault_text};

    ghost output = { λ f. Some (attach_fault_text f) };

    fn fmt<W: fmt::Write>(&self, f: &mut fmt::Formatter<W>) -> fmt::Result {
        match self {
            AttachFault::Malformed(CmsFault::Malformed(fault)) => write!(f, "A1 {fault}"),
            AttachFault::Malformed(CmsFault::NotSignedData) => f.write_str("A1 NotSignedData"),
            AttachFault::Malformed(CmsFault::OutOfMemory) => f.write_str("A1 OutOfMemory"),
            AttachFault::NoSuchSigner => f.write_str("A2 NoSuchSigner"),
            AttachFault::TokenMalformed => f.write_str("A3 TokenMalformed"),
            AttachFault::ImprintDiffers => f.write_str("A4 ImprintDiffers"),
            AttachFault::TooLong => f.write_str("A5 TooLong"),
            AttachFault::WriteFailed => f.write_str("A6 WriteFailed"),
        }
    }
}

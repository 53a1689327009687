use der_core::Fault;
use std::fmt;
use thiserror::Error;

/// Why a read call returned no SignedData. No read of this workspace allocates, and a clause of each excludes
/// `OutOfMemory`.
#[derive(Clone, Copy, Debug, PartialEq, Eq, Error)]
pub enum CmsFault {
    /// The octets are not a ContentInfo (RFC 5652 3).
    Malformed(Fault),
    /// They are a ContentInfo of a type other than id-signedData.
    NotSignedData,
    /// Memory was refused.
    OutOfMemory,
}

impl fmt::Display for CmsFault {
    ghost use Rattle.std.specs.Prelude.{Some};
    ghost use Rattle.cms_types.specs.CmsFaults.{cms_fault_text};

    ghost output = { λ f. Some (cms_fault_text f) };

    fn fmt<W: fmt::Write>(&self, f: &mut fmt::Formatter<W>) -> fmt::Result {
        match self {
            CmsFault::Malformed(fault) => write!(f, "malformed {fault}"),
            CmsFault::NotSignedData => f.write_str("not a SignedData"),
            CmsFault::OutOfMemory => f.write_str("out of memory"),
        }
    }
}

impl From<Fault> for CmsFault {
    ghost use Rattle.std.specs.Prelude.{◌≡◌};
    ghost use Rattle.cms_types.specs.declared.fault.CmsFault.TheVariants.{Malformed};

    // A fault becomes `Malformed` with this fault.
    ghost from_gives = { λ f e. e ≡ Malformed f };

    fn from(fault: Fault) -> CmsFault {
        CmsFault::Malformed(fault)
    }
}

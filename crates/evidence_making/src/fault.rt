use der_core::{Fault, TooLong};
use std::alloc::AllocError;
use std::fmt;
use thiserror::Error;

/// Why no evidence record was made. `Display` prints the code and the name.
#[derive(Clone, Copy, Debug, PartialEq, Eq, Error)]
pub enum MakeFault {
    /// U10: some contents would have more than 4,294,967,295 octets.
    TooLong,
    /// X4: memory was refused.
    OutOfMemory,
}

impl fmt::Display for MakeFault {
    ghost use Rattle.std.specs.Prelude.{Some};
    ghost use Rattle.evidence_making.specs.FaultTexts.{make_fault_text};

    ghost output = { λ f. Some (make_fault_text f) };

    fn fmt<W: fmt::Write>(&self, f: &mut fmt::Formatter<W>) -> fmt::Result {
        f.write_str(match self {
            MakeFault::TooLong => "U10 TooLong",
            MakeFault::OutOfMemory => "X4 OutOfMemory",
        })
    }
}

impl From<AllocError> for MakeFault {
    ghost use Rattle.std.specs.Prelude.{◌≡◌};
    ghost use Rattle.evidence_making.specs.declared.fault.MakeFault.TheVariants.{OutOfMemory};

    // A lack of memory becomes `OutOfMemory`.
    ghost from_gives = { λ _ e. e ≡ OutOfMemory };

    fn from(_fault: AllocError) -> MakeFault {
        MakeFault::OutOfMemory
    }
}

impl From<TooLong> for MakeFault {
    ghost use Rattle.std.specs.Prelude.{◌≡◌};
    ghost use Rattle.evidence_making.specs.declared.fault.MakeFault.TheVariants.{TooLong};

    // A length that is too long becomes `TooLong`.
    ghost from_gives = { λ _ e. e ≡ TooLong };

    fn from(_fault: der_core::TooLong) -> MakeFault {
        MakeFault::TooLong
    }
}

/// Why no evidence record was renewed. `Display` prints the code and the name; of a record that is malformed the fault
/// follows.
#[derive(Clone, Copy, Debug, PartialEq, Eq, Error)]
pub enum RenewFault {
    /// V1: it is not an evidence record.
    Malformed(Fault),
    /// U10: some contents would have more than 4,294,967,295 octets.
    TooLong,
    /// X4: memory was refused.
    OutOfMemory,
}

impl fmt::Display for RenewFault {
    ghost use Rattle.std.specs.Prelude.{Some};
    ghost use Rattle.evidence_making.specs.FaultTexts.{renew_fault_text};

    ghost output = { λ f. Some (renew_fault_text f) };

    fn fmt<W: fmt::Write>(&self, f: &mut fmt::Formatter<W>) -> fmt::Result {
        match self {
            RenewFault::Malformed(fault) => write!(f, "V1 {fault}"),
            RenewFault::TooLong => f.write_str("U10 TooLong"),
            RenewFault::OutOfMemory => f.write_str("X4 OutOfMemory"),
        }
    }
}

/// Why a token can't be the stamp of a root. `Display` prints the code and the name.
#[derive(Clone, Copy, Debug, PartialEq, Eq, Error)]
pub enum StampFault {
    /// U7: it isn't a token: a CMS SignedData with a TSTInfo as its content (RFC 3161 2.4.2).
    TokenMalformed,
    /// U8: its imprint isn't the root: another algorithm is named, or the octets differ.
    ImprintDiffers,
    /// U9: its moment isn't later than that of the last time-stamp of a record (RFC 4998 5.1).
    Order,
}

impl fmt::Display for StampFault {
    ghost use Rattle.std.specs.Prelude.{Some};
    ghost use Rattle.evidence_making.specs.FaultTexts.{stamp_fault_text};

    ghost output = { λ f. Some (stamp_fault_text f) };

    fn fmt<W: fmt::Write>(&self, f: &mut fmt::Formatter<W>) -> fmt::Result {
        f.write_str(match self {
            StampFault::TokenMalformed => "U7 TokenMalformed",
            StampFault::ImprintDiffers => "U8 ImprintDiffers",
            StampFault::Order => "U9 Order",
        })
    }
}

/// Why there is nothing on which the renewal of an evidence record stands. `Display` prints the code and the name; of a
/// record that is malformed the fault follows.
#[derive(Clone, Copy, Debug, PartialEq, Eq, Error)]
pub enum LeafFault {
    /// V1: it is not an evidence record.
    Malformed(Fault),
    /// U3: the record is encrypted, its last `timeStamp` is no token, or its last chain has no algorithm that is known
    /// (RFC 4998 5.2).
    NoStamp,
    /// U11: the record's first list has another number of hash values than digests are named, and nobody says that the
    /// others are of neighbours in the tree (RFC 4998 4.2).
    Unnamed,
    /// X4: memory was refused.
    OutOfMemory,
}

impl fmt::Display for LeafFault {
    ghost use Rattle.std.specs.Prelude.{Some};
    ghost use Rattle.evidence_making.specs.FaultTexts.{leaf_fault_text};

    ghost output = { λ f. Some (leaf_fault_text f) };

    fn fmt<W: fmt::Write>(&self, f: &mut fmt::Formatter<W>) -> fmt::Result {
        match self {
            LeafFault::Malformed(fault) => write!(f, "V1 {fault}"),
            LeafFault::NoStamp => f.write_str("U3 NoStamp"),
            LeafFault::Unnamed => f.write_str("U11 Unnamed"),
            LeafFault::OutOfMemory => f.write_str("X4 OutOfMemory"),
        }
    }
}

impl From<AllocError> for LeafFault {
    ghost use Rattle.std.specs.Prelude.{◌≡◌};
    ghost use Rattle.evidence_making.specs.declared.fault.LeafFault.TheVariants.{OutOfMemory};

    // A lack of memory becomes `OutOfMemory`.
    ghost from_gives = { λ _ e. e ≡ OutOfMemory };

    fn from(_fault: AllocError) -> LeafFault {
        LeafFault::OutOfMemory
    }
}

use der_core::Fault;
use std::fmt;
use thiserror::Error;

/// Why a pass over a source stopped early. `Display` prints its code and its name, and the fault of form.
#[derive(Clone, Copy, Debug, PartialEq, Eq, Error)]
pub enum StreamFault {
    /// C1: the octets have this fault of form.
    Malformed(Fault),
    /// X1: the source failed, and counted the failure.
    ReadFailed,
    /// X3: an element that is to be kept is longer than the room for it.
    TooLong,
}

impl fmt::Display for StreamFault {
    ghost use Rattle.std.specs.Prelude.{Some};
    ghost use Rattle.cms_stream.specs.FaultTexts.{stream_fault_text};

    ghost output = { λ f. Some (stream_fault_text f) };

    fn fmt<W: fmt::Write>(&self, f: &mut fmt::Formatter<W>) -> fmt::Result {
        match self {
            StreamFault::Malformed(fault) => write!(f, "C1 {fault}"),
            StreamFault::ReadFailed => f.write_str("X1 ReadFailed"),
            StreamFault::TooLong => f.write_str("X3 TooLong"),
        }
    }
}

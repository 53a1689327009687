ghost use Rattle.std.specs.Prelude.{◌≡◌, ◌+◌, ◌^◌, ◌<◌, ◌≤◌, ◌↔◌, ◌∷◌, ◌++◌, length, vec_len, vec_capacity, IfOk, OnOk};
ghost use Rattle.std.specs.Prelude.{IsErr, Err};
ghost use Rattle.der_core.specs.Element.{el, len as length_octets};
ghost use Rattle.der_core.specs.Values.{HasLength};

use der_core::{TooLong, header};
use std::alloc::AllocError;
use std::fmt;
use thiserror::Error;

/// Why no request was made.
#[derive(Clone, Copy, Debug, PartialEq, Eq, Error)]
pub enum MakeFault {
    /// N1: some contents would have more than 4,294,967,295 octets.
    TooLong,
    /// N2: memory was refused.
    OutOfMemory,
}

impl fmt::Display for MakeFault {
    ghost use Rattle.std.specs.Prelude.{Some};
    ghost use Rattle.tsp_types.specs.MakeFaultTexts.{make_fault_text};

    ghost output = { λ f. Some (make_fault_text f) };

    fn fmt<W: fmt::Write>(&self, f: &mut fmt::Formatter<W>) -> fmt::Result {
        f.write_str(match self {
            MakeFault::TooLong => "N1 TooLong",
            MakeFault::OutOfMemory => "N2 OutOfMemory",
        })
    }
}

impl From<AllocError> for MakeFault {
    ghost use Rattle.std.specs.Prelude.{◌≡◌};
    ghost use Rattle.tsp_types.specs.declared.putting.MakeFault.TheVariants.{OutOfMemory};

    // A lack of memory becomes `OutOfMemory`.
    ghost from_gives = { λ _ e. e ≡ OutOfMemory };

    fn from(_fault: AllocError) -> MakeFault {
        MakeFault::OutOfMemory
    }
}

impl From<TooLong> for MakeFault {
    ghost use Rattle.std.specs.Prelude.{◌≡◌};
    ghost use Rattle.tsp_types.specs.declared.putting.MakeFault.TheVariants.{TooLong};

    // A length that is too long becomes `TooLong`.
    ghost from_gives = { λ _ e. e ≡ TooLong };

    fn from(_fault: der_core::TooLong) -> MakeFault {
        MakeFault::TooLong
    }
}

// How many octets an element has whose contents have this many.
pub(crate) fn element_length(contents: usize) -> Result<u64, TooLong>
    ensures size { IfOk result (λ n. (n ≡ 1 + length (length_octets contents) + contents) × (n < 2 ^ 33)) }
    ensures too_long { IsErr result ↔ (4294967295 < contents) }
{
    let header = header(0, contents as u64)?;
    Ok(header.bytes().len() as u64 + contents as u64)
}

pub(crate) fn put_header(out: &mut Vec<u8>, tag: u8, contents: u64) -> Result<(), MakeFault>
    ensures put { OnOk result (out.new.items ≡ out.old.items ++ (tag ∷ length_octets contents)) }
    ensures too_long { (result ≡ Err MakeFault.TooLong) ↔ (4294967295 < contents) }
    // Memory is requested only if the present capacity is too small.
    ensures full { result ≡ Err MakeFault.OutOfMemory
        → vec_capacity out.old < vec_len out.old + (1 + length (length_octets contents)) }
    ensures room { vec_capacity out.old ≤ vec_capacity out.new }
{
    let header = header(tag, contents)?;
    out.extend_from_slice(header.bytes())?;
    Ok(())
}

pub(crate) fn put_element(out: &mut Vec<u8>, tag: u8, contents: &[u8]) -> Result<(), MakeFault>
    ensures put { OnOk result (out.new.items ≡ out.old.items ++ el tag contents.now) }
    ensures fits { OnOk result (HasLength contents.now) }
    ensures too_long { (result ≡ Err MakeFault.TooLong) ↔ (4294967295 < length contents.now) }
    // Memory is requested only if the present capacity is too small.
    ensures full { result ≡ Err MakeFault.OutOfMemory
        → vec_capacity out.old < vec_len out.old + length (el tag contents.now) }
    ensures room { vec_capacity out.old ≤ vec_capacity out.new }
{
    put_header(out, tag, contents.len() as u64)?;
    out.extend_from_slice(contents)?;
    Ok(())
}

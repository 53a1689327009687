ghost use Rattle.std.specs.Prelude.{◌≡◌, ◌+◌, ◌^◌, ◌<◌, ◌↔◌, ◌∷◌, length, IfOk, IsErr};
ghost use Rattle.der_core.specs.Element.{len as length_octets};

use der_core::{Header, TooLong, header};

// How an element begins, and how many octets the whole element has.
#[derive(Drop)]
pub(crate) struct Opening {
    pub(crate) header: Header,
    pub(crate) size: u64,
}

// The beginning of an element whose contents have this many octets.
pub(crate) fn open(tag: u8, contents: u64) -> Result<Opening, TooLong>
    ensures header { IfOk result (λ o. o.header ≡ tag ∷ length_octets contents) }
    ensures size { IfOk result (λ o. (o.size ≡ 1 + length (length_octets contents) + contents) × (o.size < 2 ^ 33)) }
    ensures too_long { IsErr result ↔ 4294967295 < contents }
{
    let header = header(tag, contents)?;
    let size = header.bytes().len() as u64 + contents;
    Ok(Opening { header, size })
}

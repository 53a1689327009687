ghost use Rattle.std.specs.Prelude.{◌≡◌, ◌∷◌, ◌<◌, ◌↔◌, IfOk, IsErr};
ghost use Rattle.der_core.specs.Element.{len as length_octets};

use crate::header_octets::{Header, TooLong};

/// The identifier octet `tag` and the least length octets for contents of `len` octets (X.690 8.1.3, 10.1): `len`
/// itself below 128, else 80 (hexadecimal) plus a count, and as many octets of `len`, the most significant first and
/// not 0.
///
/// Errors: `TooLong`, exactly when `len` is more than 4,294,967,295.
#[tactic(auto, using(crate::proofs::Headings::length_octets))]
pub fn header(tag: u8, len: u64) -> Result<Header, TooLong>
    // The identifier octet, and then the length octets of `len`.
    ensures gives { IfOk result (λ h. h ≡ tag ∷ length_octets len) }

    // A length is refused only if four octets can't hold it.
    ensures too_long { IsErr result ↔ 4294967295 < len }
{
    let [_, _, _, _, a, b, c, d] = len.to_be_bytes();
    let (octets, count) = match len {
        0..=0x7f => ([tag, d, 0, 0, 0, 0], 2),
        0x80..=0xff => ([tag, 0x81, d, 0, 0, 0], 3),
        0x100..=0xffff => ([tag, 0x82, c, d, 0, 0], 4),
        0x1_0000..=0xff_ffff => ([tag, 0x83, b, c, d, 0], 5),
        0x100_0000..=0xffff_ffff => ([tag, 0x84, a, b, c, d], 6),
        _ => return Err(TooLong),
    };
    Ok(Header { octets, count })
}

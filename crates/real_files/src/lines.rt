//! Lines: a name, a space and a value.
ghost use Rattle.std.specs.Prelude.{◌≡◌, ◌++◌, IfOk, OnOk};
ghost use Rattle.std.specs.String.{string_bytes};
ghost use Rattle.std.specs.Fmt.{decimal};
ghost use Rattle.hex.specs.Hex.{encode_lower};
ghost use Rattle.der_oid_text.specs.OidText.{text_of};
ghost use Rattle.digests.specs.Messages.{digest_of};
ghost use Rattle.digests.specs.declared.algorithm.Alg.TheVariants.{Sha256};
ghost use Rattle.lines_shown.specs.Lines.{line};
ghost use Rattle.real_files.specs.PartLines.{count_line, sum_line};

use der_core::Oid;
use der_oid_text::oid_text;
use digests::{Alg, digest};
use std::alloc::{AllocError, Global};

/// Adds the line of a number, or of `-` if there is none.
///
/// Errors: `AllocError` if memory is refused; the contents of the text are then unspecified.
pub fn push_count(text: &mut String, name: &str, count: Option<usize>) -> Result<(), AllocError>
    ensures { OnOk result (string_bytes text.new ≡ string_bytes text.old ++ count_line name.now count) }
{
    match count {
        Some(count) => write!(text, "{name} {count}\n"),
        None => write!(text, "{name} -\n"),
    }
}

/// Adds the line of an object identifier, in decimal with points.
///
/// Errors: as `push_count`.
pub fn push_oid(alloc: Global, text: &mut String, name: &str, oid: &Oid) -> Result<(), AllocError>
    ensures { OnOk result (string_bytes text.new ≡ string_bytes text.old ++ line name.now (text_of oid.now)) }
{
    let points = oid_text(alloc, oid)?;
    write!(text, "{name} {points}\n")
}

/// The SHA-256 of octets, in lower-case hexadecimal.
///
/// Errors: `AllocError` if memory is refused.
fn sum(alloc: Global, octets: &[u8]) -> Result<String, AllocError>
    ensures { IfOk result (λ text. string_bytes text ≡ encode_lower (digest_of Sha256 octets.now)) }
{
    hex::encode(alloc, digest(Alg::Sha256, octets).bytes())
}

/// Adds the line of octets: how many there are, and their SHA-256.
///
/// Errors: as `push_count`.
pub fn push_sum(
    alloc: Global,
    text: &mut String,
    name: &str,
    octets: &[u8],
) -> Result<(), AllocError>
    ensures { OnOk result (string_bytes text.new ≡ string_bytes text.old ++ sum_line name.now octets.now) }
{
    let sum = sum(alloc, octets)?;
    let count = octets.len();
    write!(text, "{name} {count} sha256 {sum}\n")
}

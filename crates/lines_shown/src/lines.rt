ghost use Rattle.std.specs.Prelude.{◌≡◌, ◌++◌, IfOk, OnOk, codes};
ghost use Rattle.std.specs.Option.{option_copied};
ghost use Rattle.std.specs.String.{string_bytes};
ghost use Rattle.std.specs.Fmt.{decimal};
ghost use Rattle.der_oid_text.specs.OidText.{text_of};
ghost use Rattle.lines_shown.specs.Lines.{line, octets_text, state_text, optional_line, extensions_line};

use cert_types::Extensions;
use der_core::{Flag, Int, Oid};
use der_oid_text::oid_text;
use der_time::TimeText;
use std::alloc::{AllocError, Global};

/// The octets in lower-case hexadecimal, or `-` if there are none.
///
/// Errors: `AllocError` if memory is refused.
pub fn octets_text(alloc: Global, octets: &[u8]) -> Result<String, AllocError>
    ensures { IfOk result (λ text. string_bytes text ≡ octets_text octets.now) }
{
    if octets.is_empty() {
        String::from_str(alloc, "-")
    } else {
        hex::encode(alloc, octets)
    }
}

/// The state of a BOOLEAN with the default FALSE: `absent`, `false` or `true`.
pub fn state_text(flag: Flag) -> &'static str
    ensures { result.now ≡ state_text flag }
{
    match flag {
        Flag::Absent => "absent",
        Flag::False => "false",
        Flag::True => "true",
    }
}

/// Adds the line of a field.
///
/// Errors: `AllocError` if memory is refused; the contents of the text are then unspecified.
pub fn push_line(text: &mut String, name: &str, value: &str) -> Result<(), AllocError>
    ensures { OnOk result (string_bytes text.new ≡ string_bytes text.old ++ line name.now value.now) }
{
    write!(text, "{name} {value}\n")
}

/// Adds the line of a field whose value is a number, in decimal.
///
/// Errors: as `push_line`.
pub fn push_count(text: &mut String, name: &str, count: usize) -> Result<(), AllocError>
    ensures { OnOk result (string_bytes text.new ≡ string_bytes text.old ++ line name.now (decimal count)) }
{
    write!(text, "{name} {count}\n")
}

/// Adds the line of a field whose value is octets, in hexadecimal, or `-` if there are none.
///
/// Errors: as `push_line`.
pub fn push_octets(
    alloc: Global,
    text: &mut String,
    name: &str,
    octets: &[u8],
) -> Result<(), AllocError>
    ensures { OnOk result (string_bytes text.new ≡ string_bytes text.old ++ line name.now (octets_text octets.now)) }
{
    let value = octets_text(alloc, octets)?;
    push_line(text, name, value.as_str())
}

/// Adds the line of a field whose value is an object identifier, in decimal with points.
///
/// Errors: as `push_line`.
pub fn push_oid(alloc: Global, text: &mut String, name: &str, oid: &Oid) -> Result<(), AllocError>
    ensures { OnOk result (string_bytes text.new ≡ string_bytes text.old ++ line name.now (text_of oid.now)) }
{
    let value = oid_text(alloc, oid)?;
    push_line(text, name, value.as_str())
}

/// Adds the line of a field whose value is a time, as the text of a GeneralizedTime.
///
/// Errors: as `push_line`.
pub fn push_time(text: &mut String, name: &str, time: &TimeText) -> Result<(), AllocError>
    ensures { OnOk result (string_bytes text.new ≡ string_bytes text.old ++ line name.now time.now) }
{
    push_line(text, name, time.as_str())
}

/// Adds the line of a field whose value is octets, if there is one.
///
/// Errors: as `push_line`.
pub fn push_optional(
    alloc: Global,
    text: &mut String,
    name: &str,
    octets: Option<&[u8]>,
) -> Result<(), AllocError>
    ensures { OnOk result (string_bytes text.new ≡ string_bytes text.old
        ++ optional_line name.now (option_copied octets.entry)) }
{
    match octets {
        None => Ok(()),
        Some(octets) => push_octets(alloc, text, name, octets),
    }
}

/// Adds the line of a nonce, the contents of the INTEGER, if there is one.
///
/// Errors: as `push_line`.
pub fn push_nonce(alloc: Global, text: &mut String, nonce: Option<&Int>) -> Result<(), AllocError>
    ensures { OnOk result (string_bytes text.new ≡ string_bytes text.old ++ optional_line (codes "nonce")
        (option_copied nonce.entry)) }
{
    match nonce {
        None => Ok(()),
        Some(int) => push_octets(alloc, text, "nonce", int.bytes()),
    }
}

/// Adds the line of how many extensions there are, if there is a list of them.
///
/// Errors: as `push_line`.
pub fn push_extensions(text: &mut String, extensions: Option<&Extensions>) -> Result<(), AllocError>
    ensures { OnOk result (string_bytes text.new ≡ string_bytes text.old
        ++ extensions_line (option_copied extensions.entry)) }
{
    match extensions {
        None => Ok(()),
        Some(list) => push_count(text, "extensions", list.len()),
    }
}

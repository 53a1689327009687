//! The arcs of an OBJECT IDENTIFIER as text, in decimal and joined by points (X.690 8.19).
ghost use Rattle.std.specs.Prelude.{◌≡◌, ◌≢◌, ℕ, ◌+◌, ◌*◌, ◌%◌, ◌<◌, ◌≤◌, ◌^◌, true, false, List, [], ◌∷◌, ◌++◌};
ghost use Rattle.std.specs.Prelude.{length, map, codes, vec_len, vec_capacity, IfOk, OnOk, OnErr, IfSome, MatchOption};
ghost use Rattle.std.specs.List.{slice_split};
ghost use Rattle.std.specs.Fmt.{decimal};
ghost use Rattle.std.specs.String.{string_bytes};
ghost use Rattle.hex.specs.Hex.{encode_lower};
ghost use Rattle.der_core.specs.Contents.{are_subidentifiers};
ghost use Rattle.der_oid_text.specs.OidText.{subidentifiers, first_arcs, arcs, dotted, are_small, text_of, Spells};
ghost use Rattle.der_oid_text.specs.OidSteps.{is_point, is_decimal, base_128, high_octets};

use der_core::Oid;
use std::alloc::{AllocError, AllocFailed, Global};
use std::fmt;
use thiserror::Error;

/// Why there is no object identifier for a text.
#[derive(Clone, Copy, Debug, PartialEq, Eq, Error)]
pub enum OidFault {
    /// O1: the text spells no object identifier.
    OidText,
    /// O2: memory was refused.
    OutOfMemory,
}

impl fmt::Display for OidFault {
    ghost use Rattle.std.specs.Prelude.{Some};
    ghost use Rattle.der_oid_text.specs.OidFaultTexts.{oid_fault_text};

    ghost output = { λ f. Some (oid_fault_text f) };

    fn fmt<W: fmt::Write>(&self, f: &mut fmt::Formatter<W>) -> fmt::Result {
        f.write_str(match self {
            OidFault::OidText => "O1 OidText",
            OidFault::OutOfMemory => "O2 OutOfMemory",
        })
    }
}

impl From<AllocError> for OidFault {
    ghost use Rattle.std.specs.Prelude.{◌≡◌};
    ghost use Rattle.der_oid_text.specs.declared.oid_arcs.OidFault.TheVariants.{OutOfMemory};

    // A lack of memory becomes `OutOfMemory`.
    ghost from_gives = { λ _ e. e ≡ OutOfMemory };

    fn from(_e: AllocError) -> OidFault {
        OidFault::OutOfMemory
    }
}

impl<T: Drop> From<AllocFailed<T>> for OidFault {
    ghost use Rattle.std.specs.Prelude.{◌≡◌};
    ghost use Rattle.der_oid_text.specs.declared.oid_arcs.OidFault.TheVariants.{OutOfMemory};

    // A lack of memory becomes `OutOfMemory`.
    ghost from_gives = { λ _ e. e ≡ OutOfMemory };

    fn from(_e: AllocFailed<T>) -> OidFault {
        OidFault::OutOfMemory
    }
}

// One more digit in base 128, the low seven bits of the octet.
fn with_digit(number: u128, octet: u8) -> Option<u128>
    ensures { MatchOption result (2 ^ 128 ≤ number * 128 + octet % 128) (λ n. n ≡ number * 128 + octet % 128) }
{
    number
        .checked_mul(128)?
        .checked_add(u128::from(octet % 128))
}

// The subidentifiers of contents octets, unless one is above 2^128 - 1.
fn subidentifiers(alloc: Global, contents: &[u8]) -> Result<Option<Vec<u128>>, AllocError>
    requires { are_subidentifiers true contents.now ≡ true }
    ensures { IfOk result (λ found. MatchOption found (are_small (subidentifiers contents.now) ≡ false)
        (λ v. (v.items ≡ subidentifiers contents.now) × (are_small (subidentifiers contents.now) ≡ true))) }
{
    let mut found = Vec::new(alloc);
    let mut number = 0;
    for octet in contents {
        let Some(next) = with_digit(number, *octet) else {
            return Ok(None);
        };
        if *octet < 128 {
            found.push(next)?;
            number = 0;
        } else {
            number = next;
        }
    }
    Ok(Some(found))
}

// The first two arcs, which the first subidentifier encodes.
fn first_arcs(subidentifier: u128) -> (u128, u128)
    ensures { first_arcs subidentifier ≡ result.0 ∷ result.1 ∷ [] }
{
    if subidentifier < 40 {
        (0, subidentifier)
    } else if subidentifier < 80 {
        (1, subidentifier - 40)
    } else {
        (2, subidentifier - 80)
    }
}

// The arcs of subidentifiers, in decimal and joined by points.
fn dotted(alloc: Global, subidentifiers: &[u128]) -> Result<String, AllocError>
    ensures { IfOk result (λ s. string_bytes s ≡ dotted (arcs subidentifiers.now)) }
{
    let Some((leading, others)) = subidentifiers.split_first() else {
        return Ok(String::new(alloc));
    };
    let (first, second) = first_arcs(*leading);
    let mut text = format!(in alloc; "{first}.{second}")?;
    for arc in others {
        write!(text, ".{arc}")?;
    }
    Ok(text)
}

// `hex:` and the octets in lower-case hexadecimal.
fn hexadecimal(alloc: Global, contents: &[u8]) -> Result<String, AllocError>
    ensures { IfOk result (λ s. string_bytes s ≡ codes "hex:" ++ encode_lower contents.now) }
{
    let digits = hex::encode(alloc, contents)?;
    format!(in alloc; "hex:{digits}")
}

/// The arcs of an object identifier (X.690 8.19) in decimal, joined by points, as in `2.999.3`. If a subidentifier is
/// above 2^128 - 1, it is `hex:` and the contents octets in lower-case hexadecimal.
///
/// The only error is that memory was refused; then there is no text.
pub fn oid_text(alloc: Global, oid: &Oid) -> Result<String, AllocError>
    // A text that is returned is that of the identifier; a lack of memory may be reported at each call.
    ensures { IfOk result (λ s. string_bytes s ≡ text_of oid.now) }
{
    let contents = oid.bytes();
    match subidentifiers(alloc, contents)? {
        Some(found) => dotted(alloc, &found),
        None => hexadecimal(alloc, contents),
    }
}

// The parts of a text between its points.
fn parts<'a>(alloc: Global, text: &'a str) -> Result<Vec<&'a str>, AllocError>
    ensures { IfOk result (λ v. map (λ part. part.now) v.items ≡ slice_split is_point text.now) }
{
    text.split('.').collect(alloc)
}

// Whether this begins like a number with no sign and no leading zero.
fn is_decimal(part: &[u8]) -> bool
    ensures { result ≡ is_decimal part.now }
{
    match part {
        [] => false,
        [only] => b'0' <= *only && *only <= b'9',
        [first, _, ..] => b'1' <= *first && *first <= b'9',
    }
}

// The number that a text spells in decimal, with no sign and no leading zero, unless it is above 2^128 - 1.
fn arc(part: &str) -> Option<u128>
    ensures spelled { IfSome result (λ n. part.now ≡ decimal n) }
    ensures refused { result ≡ None → (n : ℕ) → n < 2 ^ 128 → part.now ≡ decimal n → ⊥ }
{
    if is_decimal(part.as_bytes()) {
        part.parse::<u128>().ok()
    } else {
        None
    }
}

// The numbers that a text spells in decimal, joined by points.
fn numbers(alloc: Global, text: &str) -> Result<Vec<u128>, OidFault>
    ensures found { IfOk result (λ v. (text.now ≡ dotted v.items) × (v.items ≢ []) × (are_small v.items ≡ true)) }
    ensures refused { result ≡ Err OidFault.OidText → (ns : List ℕ)
        → ns ≢ [] → are_small ns ≡ true → text.now ≡ dotted ns → ⊥ }
{
    let mut found = Vec::new(alloc);
    for part in &parts(alloc, text)? {
        let Some(number) = arc(part) else {
            return Err(OidFault::OidText);
        };
        found.push(number)?;
    }
    Ok(found)
}

// The subidentifier of the first two arcs, unless no object identifier begins with them or it is above 2^128 - 1.
fn first_subidentifier(first: u128, second: u128) -> Option<u128>
    ensures found { IfSome result (λ s. first_arcs s ≡ first ∷ second ∷ []) }
    ensures refused { result ≡ None → (s : ℕ) → s < 2 ^ 128 → first_arcs s ≡ first ∷ second ∷ [] → ⊥ }
{
    match first {
        0 if second < 40 => Some(second),
        1 if second < 40 => Some(second + 40),
        2 => second.checked_add(80),
        _ => None,
    }
}

// Appends the digits of a number in base 128, each with the high bit set; none if it is 0.
fn push_high_octets(contents: &mut Vec<u8>, number: u128) -> Result<(), AllocError>
    ensures items { OnOk result (contents.new.items ≡ contents.old.items ++ high_octets number) }
    ensures len { OnOk result (vec_len contents.new ≡ vec_len contents.old + length (high_octets number)) }
    ensures capacity { vec_capacity contents.old ≤ vec_capacity contents.new }
    // Memory is requested only if there is no room for these octets.
    ensures full { OnErr result (vec_capacity contents.old < vec_len contents.old + length (high_octets number)) }
{
    if number > 0 {
        push_high_octets(contents, number / 128)?;
        contents.push(128 + (number % 128) as u8)?;
    }
    Ok(())
}

// Appends the octets of a subidentifier, as few as hold it.
fn push_subidentifier(contents: &mut Vec<u8>, number: u128) -> Result<(), AllocError>
    ensures items { OnOk result (contents.new.items ≡ contents.old.items ++ base_128 number) }
    // Memory is requested only if there is no room for these octets.
    ensures full { OnErr result (vec_capacity contents.old < vec_len contents.old + length (base_128 number)) }
{
    push_high_octets(contents, number / 128)?;
    contents.push((number % 128) as u8)?;
    Ok(())
}

/// The contents octets of the object identifier that a text spells (X.690 8.19): at least two arcs in decimal, with no
/// sign and no leading zero, joined by points, as `2.999.3` gives 88 37 03.
///
/// Errors: `OidText`, only if the text spells no object identifier whose subidentifiers are all at most 2^128 - 1, and
/// `OutOfMemory` if memory was refused. In both cases there are no octets.
pub fn oid_parse(alloc: Global, text: &str) -> Result<Vec<u8>, OidFault>
    // Returns octets that the text spells.
    ensures found { IfOk result (λ v. Spells text.now v.items) }
    // If the text spells octets and there is a result, it is these octets.
    ensures only { (b : List ℕ) → Spells text.now b → IfOk result (λ v. v.items ≡ b) }
    // `OidText` is returned only if the text spells no octets.
    ensures refused { result ≡ Err OidFault.OidText → (b : List ℕ) → Spells text.now b → ⊥ }
{
    let numbers = numbers(alloc, text)?;
    let [first, second, others @ ..] = numbers.as_slice() else {
        return Err(OidFault::OidText);
    };
    let Some(leading) = first_subidentifier(*first, *second) else {
        return Err(OidFault::OidText);
    };
    let mut contents = Vec::new(alloc);
    push_subidentifier(&mut contents, leading)?;
    for number in others {
        push_subidentifier(&mut contents, *number)?;
    }
    Ok(contents)
}

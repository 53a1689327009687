//! The parts of a SignedData of which `show signed` gives only the number, or nothing.
ghost use Rattle.std.specs.Prelude.{◌≡◌, ◌++◌, ◌∷◌, IfOk, OnOk, codes, length};
ghost use Rattle.std.specs.Option.{option_copied, option_map};
ghost use Rattle.std.specs.String.{string_bytes};
ghost use Rattle.cms_types.specs.Tokens.{tokens_of};
ghost use Rattle.real_files.specs.PartLines.{count_line, optional_sum_line, digest_lines, attribute_line};
ghost use Rattle.real_files.specs.PartLines.{attribute_lines, signed_lines, token_lines, signer_lines, signers_lines};
ghost use Rattle.real_files.specs.PartLines.{part_lines};

use crate::lines::{push_count, push_oid, push_sum};
use cms_types::{Attribute, Attributes, SignedData, Signer, Signers, Tokens};
use der_core::tags::SET;
use der_lists::{AlgorithmIdentifiers, Opaques};
use std::alloc::{AllocError, Global};

/// Adds a line for each digest algorithm that is listed.
fn push_digests(
    alloc: Global,
    text: &mut String,
    listed: &AlgorithmIdentifiers,
) -> Result<(), AllocError>
    ensures { OnOk result (string_bytes text.new ≡ string_bytes text.old ++ digest_lines listed.now) }
{
    let mut left = listed.again();
    while let Some((algorithm, others)) = left.next() {
        push_oid(alloc, text, "lists", algorithm.oid())?;
        left = others;
    }
    Ok(())
}

/// Adds the line of the content.
fn push_content(alloc: Global, text: &mut String, content: Option<&[u8]>) -> Result<(), AllocError>
    ensures { OnOk result (string_bytes text.new ≡ string_bytes text.old ++ optional_sum_line (codes "content")
        (option_copied content.entry)) }
{
    match content {
        Some(octets) => push_sum(alloc, text, "content", octets),
        None => push_count(text, "content", None),
    }
}

/// Adds the line of how many elements a part has; of `-` if it is absent.
fn push_elements(
    text: &mut String,
    name: &str,
    elements: Option<&Opaques>,
) -> Result<(), AllocError>
    ensures { OnOk result (string_bytes text.new ≡ string_bytes text.old
        ++ count_line name.now (option_map length (option_copied elements.entry))) }
{
    match elements {
        Some(elements) => push_count(text, name, Some(elements.len())),
        None => push_count(text, name, None),
    }
}

/// Adds the line of an attribute: its type.
fn push_attribute(alloc: Global, text: &mut String, attribute: &Attribute) -> Result<(), AllocError>
    ensures { OnOk result (string_bytes text.new ≡ string_bytes text.old ++ attribute_line attribute.now) }
{
    push_oid(alloc, text, "attribute", attribute.id())
}

/// Adds a line for each attribute.
fn push_attributes(
    alloc: Global,
    text: &mut String,
    attributes: &Attributes,
) -> Result<(), AllocError>
    ensures { OnOk result (string_bytes text.new ≡ string_bytes text.old ++ attribute_lines attributes.now) }
{
    let mut left = attributes.again();
    while let Some((attribute, others)) = left.next() {
        push_attribute(alloc, text, &attribute)?;
        left = others;
    }
    Ok(())
}

/// The octets that a signature over attributes is over, of which these are all but the first (RFC 5652 5.4).
fn signed_octets(alloc: Global, tail: &[u8]) -> Result<Vec<u8>, AllocError>
    ensures { IfOk result (λ octets. octets.items ≡ SET ∷ tail.now) }
{
    let mut octets = Vec::new(alloc);
    octets.push(SET)?;
    octets.extend_from_slice(tail)?;
    Ok(octets)
}

/// Adds the lines of a signer's signed attributes.
fn push_signed(alloc: Global, text: &mut String, signer: &Signer) -> Result<(), AllocError>
    ensures { OnOk result (string_bytes text.new ≡ string_bytes text.old ++ signed_lines signer.now.signed_attributes) }
{
    let (Some(attributes), Some(tail)) = (signer.attributes(), signer.tail()) else {
        return push_count(text, "signed", None);
    };
    push_attributes(alloc, text, attributes)?;
    let octets = signed_octets(alloc, tail)?;
    push_sum(alloc, text, "signed", octets.as_slice())
}

/// Adds a line for each token.
fn push_tokens(alloc: Global, text: &mut String, tokens: &Tokens) -> Result<(), AllocError>
    ensures { OnOk result (string_bytes text.new ≡ string_bytes text.old ++ token_lines tokens.now) }
{
    let mut left = tokens.again();
    while let Some((token, others)) = left.next() {
        push_sum(alloc, text, "token", token.whole())?;
        left = others;
    }
    Ok(())
}

/// Adds the line of how many unsigned attributes a signer has, and those of its tokens.
fn push_unsigned(alloc: Global, text: &mut String, signer: &Signer) -> Result<(), AllocError>
    ensures { OnOk result (string_bytes text.new ≡ string_bytes text.old ++ count_line (codes "unsigned")
        (option_map length signer.now.unsigned_attributes)
        ++ token_lines (tokens_of signer.now.unsigned_attributes)) }
{
    let count = match signer.unsigned_attributes() {
        Some(attributes) => Some(attributes.len()),
        None => None,
    };
    push_count(text, "unsigned", count)?;
    push_tokens(alloc, text, &signer.tokens())
}

/// Adds the lines of a signer with this number, which counts from 1.
fn push_signer(
    alloc: Global,
    text: &mut String,
    number: usize,
    signer: &Signer,
) -> Result<(), AllocError>
    ensures { OnOk result (string_bytes text.new ≡ string_bytes text.old ++ signer_lines number signer.now) }
{
    push_count(text, "signer", Some(number))?;
    push_signed(alloc, text, signer)?;
    push_sum(alloc, text, "signature", signer.signature())?;
    push_unsigned(alloc, text, signer)
}

/// Adds the lines of the signers, numbered from 1.
fn push_signers(alloc: Global, text: &mut String, signers: &Signers) -> Result<(), AllocError>
    ensures { OnOk result (string_bytes text.new ≡ string_bytes text.old ++ signers_lines 1 signers.now) }
{
    let total = signers.len();
    let mut number = 0;
    let mut left = signers.again();
    while let Some((signer, others)) = left.next() {
        prove!(number < total);
        number += 1;
        push_signer(alloc, text, number, &signer)?;
        left = others;
    }
    Ok(())
}

/// Adds the lines of the parts of a SignedData, in the order of its encoding.
///
/// Errors: `AllocError` if memory is refused; the contents of the text are then unspecified.
pub fn push_parts(alloc: Global, text: &mut String, signed: &SignedData) -> Result<(), AllocError>
    ensures { OnOk result (string_bytes text.new ≡ string_bytes text.old ++ part_lines signed.now) }
{
    text.push_str("parts\n")?;
    push_digests(alloc, text, signed.digest_algorithms())?;
    push_content(alloc, text, signed.content())?;
    push_elements(text, "certificates", signed.certificates())?;
    push_elements(text, "crls", signed.crls())?;
    push_signers(alloc, text, signed.signers())
}

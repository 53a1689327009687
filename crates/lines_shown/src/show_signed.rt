ghost use Rattle.std.specs.Prelude.{◌≡◌, ◌↔◌, ◌++◌, IfErr, IfOk, OnOk, Err, codes, length};
ghost use Rattle.std.specs.Option.{option_copied};
ghost use Rattle.std.specs.Fmt.{decimal};
ghost use Rattle.std.specs.String.{string_bytes};
ghost use Rattle.der_oid_text.specs.OidText.{text_of};
ghost use Rattle.cms_types.specs.CmsFaults.{IsCmsFault};
ghost use Rattle.cms_types.specs.Fields.{sid_value};
ghost use Rattle.cms_types.specs.SignedDataValue.{SignedDataValue, EncodesSignedData, EncodesAnotherType};
ghost use Rattle.cms_types.specs.Tokens.{tokens_of};
ghost use Rattle.cms_types.specs.Versions.{signer_version, signed_data_version};
ghost use Rattle.lines_shown.specs.Lines.{line};
ghost use Rattle.lines_shown.specs.SignedLines.{agreement, version_text, content_line, elements_line, sid_line};
ghost use Rattle.lines_shown.specs.SignedLines.{attributes_line, signer_lines, signers_lines, signed_lines};
ghost use Rattle.lines_shown.specs.SignedLines.{ShowsSigned};

use crate::lines::{octets_text, push_count, push_line, push_octets, push_oid};
use cms_types::{Attributes, CmsFault, SignedData, Signer, SignerId, Signers};
use der_lists::Opaques;
use std::alloc::{AllocError, Global};

/// Whether a version is the one that the standard demands: ` agrees` or ` differs`.
fn agreement(stated: u8, standard: u8) -> &'static str
    ensures { result.now ≡ agreement stated standard }
{
    if stated == standard {
        " agrees"
    } else {
        " differs"
    }
}

/// Adds the line of the version of the whole.
fn push_version(text: &mut String, signed: &SignedData) -> Result<(), AllocError>
    ensures { OnOk result (string_bytes text.new ≡ string_bytes text.old ++ line (codes "version")
        (version_text signed.now.version (signed_data_version signed.now))) }
{
    let version = signed.version();
    let agreement = agreement(version, signed.standard_version());
    write!(text, "version {version}{agreement}\n")
}

/// Adds the line of the size of the content.
fn push_content(text: &mut String, content: Option<&[u8]>) -> Result<(), AllocError>
    ensures { OnOk result (string_bytes text.new ≡ string_bytes text.old
        ++ content_line (option_copied content.entry)) }
{
    match content {
        None => push_line(text, "content", "absent"),
        Some(octets) => push_count(text, "content", octets.len()),
    }
}

/// Adds the line of how many elements a part has, 0 if it is absent.
fn push_elements(
    text: &mut String,
    name: &str,
    elements: Option<&Opaques>,
) -> Result<(), AllocError>
    ensures { OnOk result (string_bytes text.new ≡ string_bytes text.old
        ++ elements_line name.now (option_copied elements.entry)) }
{
    match elements {
        None => push_count(text, name, 0),
        Some(elements) => push_count(text, name, elements.len()),
    }
}

/// Adds the line of a signer's number and version.
fn push_number(text: &mut String, number: usize, signer: &Signer) -> Result<(), AllocError>
    ensures { OnOk result (string_bytes text.new
        ≡ string_bytes text.old ++ line (codes "signer")
        (decimal number ++ codes " version " ++ version_text signer.now.version (signer_version signer.now))) }
{
    let version = signer.version();
    let agreement = agreement(version, signer.standard_version());
    write!(text, "signer {number} version {version}{agreement}\n")
}

/// Adds the line of how a signer names its certificate.
fn push_sid(alloc: Global, text: &mut String, sid: &SignerId) -> Result<(), AllocError>
    ensures { OnOk result (string_bytes text.new ≡ string_bytes text.old ++ sid_line (sid_value sid.now)) }
{
    match sid {
        SignerId::IssuerAndSerial(issuer, serial) => {
            let issuer = octets_text(alloc, issuer)?;
            let serial = octets_text(alloc, serial.bytes())?;
            write!(text, "issuer {issuer} serial {serial}\n")
        }
        SignerId::KeyId(id) => push_octets(alloc, text, "keyid", id),
    }
}

/// Adds the line of how many signed attributes a signer has.
fn push_attributes(text: &mut String, attributes: Option<&Attributes>) -> Result<(), AllocError>
    ensures { OnOk result (string_bytes text.new ≡ string_bytes text.old
        ++ attributes_line (option_copied attributes.entry)) }
{
    match attributes {
        None => push_line(text, "attributes", "absent"),
        Some(attributes) => push_count(text, "attributes", attributes.len()),
    }
}

/// Adds the lines of a signer's algorithms.
fn push_algorithms(alloc: Global, text: &mut String, signer: &Signer) -> Result<(), AllocError>
    ensures { OnOk result (string_bytes text.new ≡ string_bytes text.old ++ line (codes "digest")
        (text_of signer.now.digest_algorithm.oid)
        ++ line (codes "signature") (text_of signer.now.signature_algorithm.oid)) }
{
    push_oid(alloc, text, "digest", signer.digest_algorithm().oid())?;
    push_oid(alloc, text, "signature", signer.signature_algorithm().oid())
}

/// Adds the lines of how many signed attributes and tokens a signer has.
fn push_numbers(text: &mut String, signer: &Signer) -> Result<(), AllocError>
    ensures { OnOk result (string_bytes text.new ≡ string_bytes text.old ++ attributes_line signer.now.signed_attributes
        ++ line (codes "tokens") (decimal (length (tokens_of signer.now.unsigned_attributes)))) }
{
    push_attributes(text, signer.attributes())?;
    push_count(text, "tokens", signer.tokens().len())
}

/// Adds the lines of a signer with this number, which counts from 1.
fn push_signer(
    alloc: Global,
    text: &mut String,
    number: usize,
    signer: &Signer,
) -> Result<(), AllocError>
    ensures { OnOk result (string_bytes text.new ≡ string_bytes text.old ++ signer_lines number signer.now) }
{
    push_number(text, number, signer)?;
    push_sid(alloc, text, signer.sid())?;
    push_algorithms(alloc, text, signer)?;
    push_numbers(text, signer)
}

/// Adds the lines of the signers, numbered from 1.
fn push_signers(alloc: Global, text: &mut String, signers: &Signers) -> Result<(), AllocError>
    ensures { OnOk result (string_bytes text.new ≡ string_bytes text.old ++ signers_lines 1 signers.now) }
{
    let total = signers.len();
    let mut number = 0;
    let mut left = signers.again();
    while let Some((signer, others)) = left.next() {
        prove!(number < total);
        number += 1;
        push_signer(alloc, text, number, &signer)?;
        left = others;
    }
    Ok(())
}

/// Adds the lines of the version, the digest algorithms and the type of the content.
fn push_head(alloc: Global, text: &mut String, signed: &SignedData) -> Result<(), AllocError>
    ensures { OnOk result (string_bytes text.new ≡ string_bytes text.old ++ line (codes "version")
        (version_text signed.now.version (signed_data_version signed.now))
        ++ line (codes "digests") (decimal (length signed.now.digest_algorithms))
        ++ line (codes "type") (text_of signed.now.encapsulated.content_type)) }
{
    push_version(text, signed)?;
    push_count(text, "digests", signed.digest_algorithms().len())?;
    push_oid(alloc, text, "type", signed.content_type())
}

/// Adds the lines of the content, the certificates and the revocation information.
fn push_contents(text: &mut String, signed: &SignedData) -> Result<(), AllocError>
    ensures { OnOk result (string_bytes text.new ≡ string_bytes text.old ++ content_line signed.now.encapsulated.content
        ++ elements_line (codes "certificates") signed.now.certificates
        ++ elements_line (codes "crls") signed.now.crls) }
{
    push_content(text, signed.content())?;
    push_elements(text, "certificates", signed.certificates())?;
    push_elements(text, "crls", signed.crls())
}

/// The lines that show a SignedData, each ended by LF.
fn lines(alloc: Global, signed: &SignedData) -> Result<String, AllocError>
    ensures { IfOk result (λ text. string_bytes text ≡ signed_lines signed.now) }
{
    let mut text = String::from_str(alloc, "signed\n")?;
    push_head(alloc, &mut text, signed)?;
    push_contents(&mut text, signed)?;
    push_count(&mut text, "signers", signed.signers().len())?;
    push_signers(alloc, &mut text, signed.signers())?;
    Ok(text)
}

/// The lines that show the SignedData that all of these octets encode within a ContentInfo. It is shown whether a
/// version is the one that the standard demands (RFC 5652 5.1, 5.3), and nothing is refused for this.
///
/// Errors: `NotSignedData` if they encode a ContentInfo of another type; `Malformed`, with a fault that the octets
/// have, if they don't encode a ContentInfo; `OutOfMemory` if memory is refused.
pub fn text_of(alloc: Global, octets: &[u8]) -> Result<String, CmsFault>
    // Returns the lines of the SignedData that the octets encode.
    ensures shown { IfOk result (λ text. ShowsSigned octets.now (string_bytes text)) }
    // A fault that is named is one that the octets have; `NotSignedData` if they encode another type.
    ensures refused { IfErr result (IsCmsFault octets.now) }
    // `NotSignedData` is returned exactly if they encode a ContentInfo of another type.
    ensures another { (result ≡ Err CmsFault.NotSignedData) ↔ EncodesAnotherType octets.now }
    // `OutOfMemory` is returned only if the octets encode a SignedData.
    ensures memory { result ≡ Err CmsFault.OutOfMemory → (v : SignedDataValue) × EncodesSignedData octets.now v }
{
    let signed = SignedData::read(octets)?;
    match lines(alloc, &signed) {
        Ok(text) => Ok(text),
        Err(_) => Err(CmsFault::OutOfMemory),
    }
}

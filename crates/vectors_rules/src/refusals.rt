//! The texts of rules, and the lines of refusals. A refusal is named `file/RULE`, `signer/RULE` (of the second signer),
//! `token/RULE` (of the first token of the second signer) or `device/FAULT`, with the names of `check_fit`. A fault,
//! where one belongs to it, is M14 at 148 of a file, M6 at 0 of a token, and M12 at 66 of its TSTInfo.
use check_fit::{DeviceFault, FileRule, Refused, SignerRule, TokenRule};
use cms_types::CmsFault;
use der_core::{Fault, Kind};
use vectors::{Bad, Row, Said};

static FILES: [(&str, FileRule); 6] = [
    (
        "Malformed",
        FileRule::Malformed(Fault {
            kind: Kind::Order,
            at: 148,
        }),
    ),
    ("NotSignedData", FileRule::NotSignedData),
    ("NoSigner", FileRule::NoSigner),
    ("NoContent", FileRule::NoContent),
    ("ContentTwice", FileRule::ContentTwice),
    ("NoSuchSigner", FileRule::NoSuchSigner),
];

static DEVICES: [(&str, DeviceFault); 5] = [
    ("ReadFailed", DeviceFault::ReadFailed),
    ("AskFailed", DeviceFault::AskFailed),
    ("TooLong", DeviceFault::TooLong),
    ("OutOfMemory", DeviceFault::OutOfMemory),
    ("ContentTooLong", DeviceFault::ContentTooLong),
];

static SIGNERS: [(&str, SignerRule); 10] = [
    ("NoSignedAttrs", SignerRule::NoSignedAttrs),
    ("ContentTypeAttr", SignerRule::ContentTypeAttr),
    ("ContentTypeDiffers", SignerRule::ContentTypeDiffers),
    ("DigestAttr", SignerRule::DigestAttr),
    ("DigestAlgorithm", SignerRule::DigestAlgorithm),
    ("DigestDiffers", SignerRule::DigestDiffers),
    ("UnknownSigner", SignerRule::UnknownSigner),
    ("NotNamed", SignerRule::NotNamed),
    ("SignatureFails", SignerRule::SignatureFails),
    ("NoToken", SignerRule::NoToken),
];

static TOKENS: [(&str, TokenRule); 15] = [
    (
        "Malformed",
        TokenRule::Malformed(CmsFault::Malformed(Fault {
            kind: Kind::Tag,
            at: 0,
        })),
    ),
    (
        "NotSignedData",
        TokenRule::Malformed(CmsFault::NotSignedData),
    ),
    ("ContentType", TokenRule::ContentType),
    ("NoContent", TokenRule::NoContent),
    ("OneSigner", TokenRule::OneSigner),
    (
        "DigestDiffers",
        TokenRule::Attributes(SignerRule::DigestDiffers),
    ),
    (
        "TstMalformed",
        TokenRule::TstMalformed(Fault {
            kind: Kind::Time,
            at: 66,
        }),
    ),
    ("CriticalExtension", TokenRule::CriticalExtension),
    ("ImprintAlgorithm", TokenRule::ImprintAlgorithm),
    ("ImprintDiffers", TokenRule::ImprintDiffers),
    ("UnknownTsa", TokenRule::UnknownTsa),
    ("NotNamed", TokenRule::NotNamed),
    ("Purpose", TokenRule::Purpose),
    ("Period", TokenRule::Period),
    ("SignatureFails", TokenRule::SignatureFails),
];

/// What has this name in a table.
fn row_of<T: Copy>(table: &[(&str, T)], wanted: &str) -> Result<T, Bad> {
    for (name, rule) in table {
        if *name == wanted {
            return Ok(*rule);
        }
    }
    Err(UNKNOWN)
}

const UNKNOWN: Bad = Bad::Text("a refusal that is not known");

/// The refusal that a value of a row names.
pub fn refused_in(row: &Row<'_>, name: &str) -> Result<Refused, Bad> {
    match row.text(name)?.split_once('/') {
        Some((whose, name)) => refused_of(whose, name),
        None => Err(UNKNOWN),
    }
}

fn refused_of(whose: &str, name: &str) -> Result<Refused, Bad> {
    match whose {
        "file" => Ok(Refused::File(row_of(&FILES, name)?)),
        "device" => Ok(Refused::Device(row_of(&DEVICES, name)?)),
        "signer" => Ok(Refused::Signer {
            signer: 2,
            rule: row_of(&SIGNERS, name)?,
        }),
        "token" => Ok(Refused::Token {
            signer: 2,
            token: 1,
            rule: row_of(&TOKENS, name)?,
        }),
        _ => Err(UNKNOWN),
    }
}

/// The text of a rule or of a device's fault (`rule`), or the line of a refusal (`line`).
pub fn text(said: &mut Said, row: &Row<'_>) {
    let refused = given!(said, refused_in(row, "of"));
    if row.kind == "line" {
        return said.shown(&refused);
    }
    match refused {
        Refused::File(rule) => said.shown(&rule),
        Refused::Signer { rule, .. } => said.shown(&rule),
        Refused::Token { rule, .. } => said.shown(&rule),
        Refused::Device(fault) => said.shown(&fault),
    }
}

ghost use Rattle.std.specs.Prelude.{◌≡◌};
ghost use Rattle.check_fit.specs.RuleTexts.{file_rule_word, signer_rule_text, token_rule_word, device_fault_text};

use cms_types::CmsFault;
use der_core::Fault;
use std::fmt;
use thiserror::Error;

/// Why a file is refused before its signers are judged.
#[derive(Clone, Copy, Debug, PartialEq, Eq, Error)]
pub enum FileRule {
    /// C1: it is not a ContentInfo.
    Malformed(Fault),
    /// C2: it is a ContentInfo of another type.
    NotSignedData,
    /// C3: it has no signer.
    NoSigner,
    /// C4: it has no content, and none was handed in.
    NoContent,
    /// C5: it has a content, and one was handed in.
    ContentTwice,
    /// C6: it has no signer of this number.
    NoSuchSigner,
}

/// Which rule a signer fails.
#[derive(Clone, Copy, Debug, PartialEq, Eq, Error)]
pub enum SignerRule {
    /// S1: it has no signed attributes.
    NoSignedAttrs,
    /// S2: the content-type attribute doesn't occur once with one value, or its value isn't an OBJECT IDENTIFIER.
    ContentTypeAttr,
    /// S3: its value isn't the type of the content.
    ContentTypeDiffers,
    /// S4: the message-digest attribute doesn't occur once with one value, or its value isn't an OCTET STRING.
    DigestAttr,
    /// S5: the digest algorithm isn't known, or isn't allowed.
    DigestAlgorithm,
    /// S6: the message digest isn't that of the content.
    DigestDiffers,
    /// S7: no trusted certificate of a signer matches; or a token passes, and none that matches is valid and trusted at
    /// the moment of one that does.
    UnknownSigner,
    /// S8: it has signing-certificate attributes, and they name none of those certificates.
    NotNamed,
    /// S9: the signature doesn't verify with any of the certificates that are named.
    SignatureFails,
    /// S10: it has no token.
    NoToken,
}

/// Which rule a token fails.
#[derive(Clone, Copy, Debug, PartialEq, Eq, Error)]
pub enum TokenRule {
    /// K1: it isn't a SignedData.
    Malformed(CmsFault),
    /// K2: by its type, its content isn't a TSTInfo.
    ContentType,
    /// K3: it has no content.
    NoContent,
    /// K4: it doesn't have exactly one signer.
    OneSigner,
    /// K5: its signer fails this one of S1 to S6.
    Attributes(SignerRule),
    /// K6: its content isn't a TSTInfo.
    TstMalformed(Fault),
    /// K7: its TSTInfo has a critical extension.
    CriticalExtension,
    /// K8: the algorithm of its imprint isn't known, or isn't allowed.
    ImprintAlgorithm,
    /// K9: its imprint isn't the digest of what was stamped.
    ImprintDiffers,
    /// K10: no trusted certificate of a time-stamping authority matches.
    UnknownTsa,
    /// K11: the signer's attributes name none of the certificates that match.
    NotNamed,
    /// K12: none of the certificates that are named is for time-stamping alone.
    Purpose,
    /// K13: none of those is valid and trusted at the moment of the stamp.
    Period,
    /// K14: the signature doesn't verify with any of those.
    SignatureFails,
}

/// Which device failed.
#[derive(Clone, Copy, Debug, PartialEq, Eq, Error)]
pub enum DeviceFault {
    /// X1: a source failed.
    ReadFailed,
    /// X2: the verifier failed.
    AskFailed,
    /// X3: what must be kept of a stream doesn't fit the buffer.
    TooLong,
    /// X4: memory was refused.
    OutOfMemory,
    /// X5: the content has more than 2^40 octets.
    ContentTooLong,
}

/// Why a file isn't accepted. Signers and tokens are numbered from 1. `Display` prints the line that says so, without
/// its end.
#[derive(Clone, Copy, Debug, PartialEq, Eq, Error)]
pub enum Refused {
    /// A rule of the file.
    File(FileRule),
    /// A rule of a signer.
    Signer {
        /// The signer's number.
        signer: usize,
        /// The first rule that it fails.
        rule: SignerRule,
    },
    /// A rule of a token.
    Token {
        /// The signer's number.
        signer: usize,
        /// The token's number.
        token: usize,
        /// The first rule that it fails.
        rule: TokenRule,
    },
    /// A device failed.
    Device(DeviceFault),
}

/// Why a single token isn't accepted. `Display` prints the code and the name of the rule or of the device's failure,
/// and the fault, if a fault follows it.
#[derive(Clone, Copy, Debug, PartialEq, Eq, Error)]
pub enum TokenRefused {
    /// The first rule that it fails.
    Rule(TokenRule),
    /// A device failed.
    Device(DeviceFault),
}

impl FileRule {
    /// Its code and its name; of a file that is malformed the code alone, since a fault follows it.
    pub fn word(self) -> &'static str
        ensures { result.now ≡ file_rule_word self }
    {
        match self {
            FileRule::Malformed(_) => "C1",
            FileRule::NotSignedData => "C2 NotSignedData",
            FileRule::NoSigner => "C3 NoSigner",
            FileRule::NoContent => "C4 NoContent",
            FileRule::ContentTwice => "C5 ContentTwice",
            FileRule::NoSuchSigner => "C6 NoSuchSigner",
        }
    }
}

impl fmt::Display for FileRule {
    ghost use Rattle.std.specs.Prelude.{Some};
    ghost use Rattle.check_fit.specs.RuleTexts.{file_rule_text};

    ghost output = { λ r. Some (file_rule_text r) };

    fn fmt<W: fmt::Write>(&self, f: &mut fmt::Formatter<W>) -> fmt::Result {
        let word = self.word();
        match self {
            FileRule::Malformed(fault) => write!(f, "{word} {fault}"),
            _ => f.write_str(word),
        }
    }
}

impl SignerRule {
    /// Its code and its name, as `Display` prints them.
    pub fn text(self) -> &'static str
        ensures { result.now ≡ signer_rule_text self }
    {
        match self {
            SignerRule::NoSignedAttrs => "S1 NoSignedAttrs",
            SignerRule::ContentTypeAttr => "S2 ContentTypeAttr",
            SignerRule::ContentTypeDiffers => "S3 ContentTypeDiffers",
            SignerRule::DigestAttr => "S4 DigestAttr",
            SignerRule::DigestAlgorithm => "S5 DigestAlgorithm",
            SignerRule::DigestDiffers => "S6 DigestDiffers",
            SignerRule::UnknownSigner => "S7 UnknownSigner",
            SignerRule::NotNamed => "S8 NotNamed",
            SignerRule::SignatureFails => "S9 SignatureFails",
            SignerRule::NoToken => "S10 NoToken",
        }
    }
}

impl fmt::Display for SignerRule {
    ghost use Rattle.std.specs.Prelude.{Some};
    ghost use Rattle.check_fit.specs.RuleTexts.{signer_rule_text};

    ghost output = { λ r. Some (signer_rule_text r) };

    fn fmt<W: fmt::Write>(&self, f: &mut fmt::Formatter<W>) -> fmt::Result {
        f.write_str(self.text())
    }
}

impl DeviceFault {
    /// Its code and its name, as `Display` prints them.
    pub fn text(self) -> &'static str
        ensures { result.now ≡ device_fault_text self }
    {
        match self {
            DeviceFault::ReadFailed => "X1 ReadFailed",
            DeviceFault::AskFailed => "X2 AskFailed",
            DeviceFault::TooLong => "X3 TooLong",
            DeviceFault::OutOfMemory => "X4 OutOfMemory",
            DeviceFault::ContentTooLong => "X5 ContentTooLong",
        }
    }
}

impl fmt::Display for DeviceFault {
    ghost use Rattle.std.specs.Prelude.{Some};
    ghost use Rattle.check_fit.specs.RuleTexts.{device_fault_text};

    ghost output = { λ r. Some (device_fault_text r) };

    fn fmt<W: fmt::Write>(&self, f: &mut fmt::Formatter<W>) -> fmt::Result {
        f.write_str(self.text())
    }
}

impl TokenRule {
    /// Its code and its name; the code alone if a fault or the rule of a signer follows it.
    pub fn word(self) -> &'static str
        ensures { result.now ≡ token_rule_word self }
    {
        match self {
            TokenRule::Malformed(CmsFault::Malformed(_)) => "K1",
            TokenRule::Malformed(CmsFault::NotSignedData) => "K1 NotSignedData",
            TokenRule::Malformed(CmsFault::OutOfMemory) => "K1 OutOfMemory",
            TokenRule::ContentType => "K2 ContentType",
            TokenRule::NoContent => "K3 NoContent",
            TokenRule::OneSigner => "K4 OneSigner",
            TokenRule::Attributes(_) => "K5",
            TokenRule::TstMalformed(_) => "K6",
            TokenRule::CriticalExtension => "K7 CriticalExtension",
            TokenRule::ImprintAlgorithm => "K8 ImprintAlgorithm",
            TokenRule::ImprintDiffers => "K9 ImprintDiffers",
            TokenRule::UnknownTsa => "K10 UnknownTsa",
            TokenRule::NotNamed => "K11 NotNamed",
            TokenRule::Purpose => "K12 Purpose",
            TokenRule::Period => "K13 Period",
            TokenRule::SignatureFails => "K14 SignatureFails",
        }
    }
}

impl fmt::Display for TokenRule {
    ghost use Rattle.std.specs.Prelude.{Some};
    ghost use Rattle.check_fit.specs.RuleTexts.{token_rule_text};

    ghost output = { λ r. Some (token_rule_text r) };

    fn fmt<W: fmt::Write>(&self, f: &mut fmt::Formatter<W>) -> fmt::Result {
        let word = self.word();
        match self {
            TokenRule::Malformed(CmsFault::Malformed(fault)) | TokenRule::TstMalformed(fault) => {
                write!(f, "{word} {fault}")
            }
            TokenRule::Attributes(rule) => write!(f, "{word} {rule}"),
            _ => f.write_str(word),
        }
    }
}

impl fmt::Display for Refused {
    ghost use Rattle.std.specs.Prelude.{Some};
    ghost use Rattle.check_fit.specs.RuleTexts.{refused_text};

    ghost output = { λ r. Some (refused_text r) };

    fn fmt<W: fmt::Write>(&self, f: &mut fmt::Formatter<W>) -> fmt::Result {
        match self {
            Refused::File(FileRule::Malformed(fault)) => write!(f, "malformed {fault}"),
            Refused::File(rule) => write!(f, "refused {rule}"),
            Refused::Signer { signer, rule } => write!(f, "refused signer {signer} {rule}"),
            Refused::Token {
                signer,
                token,
                rule,
            } => write!(f, "refused signer {signer} token {token} {rule}"),
            Refused::Device(fault) => write!(f, "failed {fault}"),
        }
    }
}

impl fmt::Display for TokenRefused {
    ghost use Rattle.std.specs.Prelude.{Some};
    ghost use Rattle.check_fit.specs.RuleTexts.{token_refused_text};

    ghost output = { λ r. Some (token_refused_text r) };

    fn fmt<W: fmt::Write>(&self, f: &mut fmt::Formatter<W>) -> fmt::Result {
        match self {
            TokenRefused::Rule(rule) => write!(f, "{rule}"),
            TokenRefused::Device(fault) => write!(f, "{fault}"),
        }
    }
}

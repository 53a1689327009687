ghost use Rattle.std.specs.Prelude.{◌≡◌};
ghost use Rattle.library_answers.specs.Numbers.{nothing, ruled, with_fault, accepted_numbers, file_numbers};
ghost use Rattle.library_answers.specs.Numbers.{token_numbers, device_numbers, refused_numbers, kind_number};
ghost use Rattle.library_answers.specs.Numbers.{cms_numbers, signer_rule_number};
ghost use Rattle.library_answers.specs.Numbers.{record_rule_numbers, stamp_rule_numbers, evidence_numbers};

use check_evidence::{EvidenceRefused, RecordRule, StampRule};
use check_fit::{DeviceFault, FileRule, Refused, SignerRule, TokenRule};
use cms_types::CmsFault;
use der_core::{Fault, Kind};
use der_time::Moment;

/// What a call says, in numbers; 0 in a field that does not apply. The header names the verdicts.
#[repr(C)]
#[derive(Clone, Copy)]
pub struct Answer {
    /// What was found; 0 is no verdict.
    pub verdict: u32,
    /// The letter of the rule's code. Of W4 it is K: the numbers are those of the rule that the token fails.
    pub letter: u32,
    /// The number of the rule's code.
    pub number: u32,
    /// The number of a rule S1 to S6 inside K5 or E4.
    pub inner: u32,
    /// The number of the kind of a fault of form, 1 to 15.
    pub kind: u32,
    /// The nanoseconds of the moment's second.
    pub nanoseconds: u32,
    /// The whole seconds of the moment from 1970-01-01 00:00:00.
    pub seconds: i64,
    /// The octet of a fault of form, from 0.
    pub at: u64,
    /// The number of the signer, from 1; of a file that fits, how many signers it has; of an evidence record the number
    /// of the chain, from 1.
    pub signer: u64,
    /// The number of the token, from 1; of an evidence record that of the archive time-stamp in its chain.
    pub token: u64,
    /// The line of a list, from 1; of two inputs, which one, 1 or 2; of an evidence record beside a signed file 2.
    pub line: u64,
}

/// A file, or a token, was accepted.
const ACCEPTED: u32 = 1;

/// A rule refuses.
pub const REFUSES: u32 = 2;

/// Octets are not of their form.
pub const IS_MALFORMED: u32 = 3;

/// A device failed, or a content is too long.
const FAILS: u32 = 4;

/// A list was read, or a text was made.
pub const WRITTEN: u32 = 10;

/// The nanoseconds of a second.
const NANOS: u128 = 1_000_000_000;

/// 1970-01-01 00:00:00 in seconds after 0000-01-01 00:00:00.
const UNIX_EPOCH: i64 = 62_167_219_200;

/// The same in nanoseconds.
const UNIX_EPOCH_NANOS: i128 = 62_167_219_200_000_000_000;

impl Answer {
    /// No verdict.
    pub fn nothing() -> Answer
        ensures { result ≡ nothing }
    {
        Answer {
            verdict: 0,
            letter: 0,
            number: 0,
            inner: 0,
            kind: 0,
            nanoseconds: 0,
            seconds: 0,
            at: 0,
            signer: 0,
            token: 0,
            line: 0,
        }
    }

    /// This verdict, by the rule of this code.
    pub fn ruled(verdict: u32, letter: u8, number: u32) -> Answer
        ensures { result ≡ ruled verdict letter number }
    {
        Answer {
            verdict,
            letter: letter as u32,
            number,
            ..Answer::nothing()
        }
    }

    /// The same, with a fault of form.
    pub fn with_fault(self, fault: Fault) -> Answer
        ensures { result ≡ with_fault self fault }
    {
        Answer {
            kind: kind_number(fault.kind),
            at: fault.at,
            ..self
        }
    }
}

/// The number of a kind of fault: 1 of M1.
pub(crate) fn kind_number(kind: Kind) -> u32
    ensures { result ≡ kind_number kind }
{
    match kind {
        Kind::End => 1,
        Kind::HighTag => 2,
        Kind::Indefinite => 3,
        Kind::LengthForm => 4,
        Kind::Overrun => 5,
        Kind::Tag => 6,
        Kind::Trailing => 7,
        Kind::Integer => 8,
        Kind::Oid => 9,
        Kind::Boolean => 10,
        Kind::Bits => 11,
        Kind::Time => 12,
        Kind::Value => 13,
        Kind::Order => 14,
        Kind::Empty => 15,
    }
}

/// The number of a signer's rule: 1 of S1.
pub(crate) fn signer_rule_number(rule: SignerRule) -> u32
    ensures { result ≡ signer_rule_number rule }
{
    match rule {
        SignerRule::NoSignedAttrs => 1,
        SignerRule::ContentTypeAttr => 2,
        SignerRule::ContentTypeDiffers => 3,
        SignerRule::DigestAttr => 4,
        SignerRule::DigestAlgorithm => 5,
        SignerRule::DigestDiffers => 6,
        SignerRule::UnknownSigner => 7,
        SignerRule::NotNamed => 8,
        SignerRule::SignatureFails => 9,
        SignerRule::NoToken => 10,
    }
}

/// The numbers of a file's rule.
fn file_answer(rule: FileRule) -> Answer
    ensures { result ≡ file_numbers rule }
{
    match rule {
        FileRule::Malformed(fault) => Answer::ruled(IS_MALFORMED, b'C', 1).with_fault(fault),
        FileRule::NotSignedData => Answer::ruled(REFUSES, b'C', 2),
        FileRule::NoSigner => Answer::ruled(REFUSES, b'C', 3),
        FileRule::NoContent => Answer::ruled(REFUSES, b'C', 4),
        FileRule::ContentTwice => Answer::ruled(REFUSES, b'C', 5),
        FileRule::NoSuchSigner => Answer::ruled(REFUSES, b'C', 6),
    }
}

/// The numbers of a token that is no SignedData.
fn cms_answer(fault: CmsFault) -> Answer
    ensures { result ≡ cms_numbers fault }
{
    match fault {
        CmsFault::Malformed(fault) => Answer::ruled(REFUSES, b'K', 1).with_fault(fault),
        _ => Answer::ruled(REFUSES, b'K', 1),
    }
}

/// The numbers of a token's rule.
pub fn token_answer(rule: TokenRule) -> Answer
    ensures { result ≡ token_numbers rule }
{
    match rule {
        TokenRule::Malformed(fault) => cms_answer(fault),
        TokenRule::ContentType => Answer::ruled(REFUSES, b'K', 2),
        TokenRule::NoContent => Answer::ruled(REFUSES, b'K', 3),
        TokenRule::OneSigner => Answer::ruled(REFUSES, b'K', 4),
        TokenRule::Attributes(rule) => Answer {
            inner: signer_rule_number(rule),
            ..Answer::ruled(REFUSES, b'K', 5)
        },
        TokenRule::TstMalformed(fault) => Answer::ruled(REFUSES, b'K', 6).with_fault(fault),
        TokenRule::CriticalExtension => Answer::ruled(REFUSES, b'K', 7),
        TokenRule::ImprintAlgorithm => Answer::ruled(REFUSES, b'K', 8),
        TokenRule::ImprintDiffers => Answer::ruled(REFUSES, b'K', 9),
        TokenRule::UnknownTsa => Answer::ruled(REFUSES, b'K', 10),
        TokenRule::NotNamed => Answer::ruled(REFUSES, b'K', 11),
        TokenRule::Purpose => Answer::ruled(REFUSES, b'K', 12),
        TokenRule::Period => Answer::ruled(REFUSES, b'K', 13),
        TokenRule::SignatureFails => Answer::ruled(REFUSES, b'K', 14),
    }
}

/// The numbers of a device's failure.
pub fn device_answer(fault: DeviceFault) -> Answer
    ensures { result ≡ device_numbers fault }
{
    match fault {
        DeviceFault::ReadFailed => Answer::ruled(FAILS, b'X', 1),
        DeviceFault::AskFailed => Answer::ruled(FAILS, b'X', 2),
        DeviceFault::TooLong => Answer::ruled(FAILS, b'X', 3),
        DeviceFault::OutOfMemory => Answer::ruled(FAILS, b'X', 4),
        DeviceFault::ContentTooLong => Answer::ruled(FAILS, b'X', 5),
    }
}

/// The numbers of a refusal of a file.
pub fn refused_answer(refused: Refused) -> Answer
    ensures { result ≡ refused_numbers refused }
{
    match refused {
        Refused::File(rule) => file_answer(rule),
        Refused::Signer { signer, rule } => Answer {
            signer: signer as u64,
            ..Answer::ruled(REFUSES, b'S', signer_rule_number(rule))
        },
        Refused::Token {
            signer,
            token,
            rule,
        } => Answer {
            signer: signer as u64,
            token: token as u64,
            ..token_answer(rule)
        },
        Refused::Device(fault) => device_answer(fault),
    }
}

/// The numbers of a rule of an evidence record.
fn record_rule_answer(rule: RecordRule) -> Answer
    ensures { result ≡ record_rule_numbers rule }
{
    match rule {
        RecordRule::Malformed(fault) => Answer::ruled(IS_MALFORMED, b'V', 1).with_fault(fault),
        RecordRule::Encrypted => Answer::ruled(REFUSES, b'V', 2),
        RecordRule::NoData => Answer::ruled(REFUSES, b'V', 3),
    }
}

/// The numbers of a rule of an archive time-stamp; of W4 those of the rule that its token fails.
fn stamp_rule_answer(rule: StampRule) -> Answer
    ensures { result ≡ stamp_rule_numbers rule }
{
    match rule {
        StampRule::Algorithm => Answer::ruled(REFUSES, b'W', 1),
        StampRule::HashLength => Answer::ruled(REFUSES, b'W', 2),
        StampRule::NotCovered => Answer::ruled(REFUSES, b'W', 3),
        StampRule::Token(rule) => token_answer(rule),
        StampRule::Order => Answer::ruled(REFUSES, b'W', 5),
        StampRule::Weak => Answer::ruled(REFUSES, b'W', 6),
        StampRule::Lapsed => Answer::ruled(REFUSES, b'W', 7),
        StampRule::Others => Answer::ruled(REFUSES, b'W', 8),
    }
}

/// The numbers of a refusal of an evidence record.
pub fn evidence_answer(refused: EvidenceRefused) -> Answer
    ensures { result ≡ evidence_numbers refused }
{
    match refused {
        EvidenceRefused::Record(rule) => record_rule_answer(rule),
        EvidenceRefused::Stamp { chain, stamp, rule } => Answer {
            signer: chain as u64,
            token: stamp as u64,
            ..stamp_rule_answer(rule)
        },
        EvidenceRefused::Device(fault) => device_answer(fault),
    }
}

/// The numbers of an acceptance with this moment.
pub fn accepted_answer(moment: Moment) -> Answer
    ensures { result ≡ accepted_numbers moment }
{
    let elapsed = (moment.nanos() + UNIX_EPOCH_NANOS) as u128;
    let seconds = (elapsed / NANOS) as i64;
    Answer {
        verdict: ACCEPTED,
        seconds: seconds - UNIX_EPOCH,
        nanoseconds: (elapsed % NANOS) as u32,
        ..Answer::nothing()
    }
}

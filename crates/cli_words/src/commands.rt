//! The commands, by groups: what names each, what its help says, and the words that it takes.
use crate::help::{
    ABOUT, ATTACH_ABOUT, ATTACH_LINES, CERTIFICATE_ABOUT, CERTIFICATE_LINES, CHECK_ABOUT,
    CHECK_LINES, COMPARE_ABOUT, COMPARE_LINES, EVIDENCE_ABOUT, EVIDENCE_CHECK_ABOUT,
    EVIDENCE_CHECK_LINES, EVIDENCE_LINES, EVIDENCE_MAKE_ABOUT, EVIDENCE_MAKE_LINES,
    EVIDENCE_QUESTIONS_ABOUT, EVIDENCE_QUESTIONS_LINES, EVIDENCE_REHASH_ABOUT,
    EVIDENCE_REHASH_LINES, EVIDENCE_RENEW_ABOUT, EVIDENCE_RENEW_LINES, EVIDENCE_REQUEST_ABOUT,
    EVIDENCE_REQUEST_LINES, FIT_ABOUT, FIT_LINES, MATCH_ABOUT, MATCH_LINES, MIGRATE_ABOUT,
    MIGRATE_LINES, QUESTIONS_ABOUT, QUESTIONS_LINES, REQUEST_ABOUT, REQUEST_LINES, SHOW_ABOUT,
    SHOW_LINES, STAMP_CHECK_ABOUT, STAMP_CHECK_LINES, STAMP_LINES, STAMP_QUESTIONS_ABOUT,
    STAMP_QUESTIONS_LINES, STAMPS_ABOUT, STATUSES,
};
use crate::vocabulary::{
    ATTACH, CERTIFICATE, CHECK, COMPARE, EVIDENCE_CHECK, EVIDENCE_MAKE, EVIDENCE_QUESTIONS,
    EVIDENCE_REHASH, EVIDENCE_RENEW, EVIDENCE_REQUEST, FIT, MATCH, MIGRATE, QUESTIONS, REQUEST,
    SHOW, STAMP_CHECK, STAMP_QUESTIONS, Word,
};

/// A command, or a group of commands.
pub enum Named {
    /// The program, without a command.
    Program,
    Request,
    Show,
    Certificate,
    Fit,
    Matching,
    Check,
    Questions,
    Attach,
    Compare,
    Migrate,
    /// The group of those about stamps.
    Stamp,
    StampCheck,
    StampQuestions,
    /// The group of those about evidence records.
    Evidence,
    EvidenceCheck,
    EvidenceQuestions,
    EvidenceRequest,
    EvidenceMake,
    EvidenceRenew,
    EvidenceRehash,
}

impl Named {
    /// The word that names it.
    pub fn name(&self) -> &'static str {
        match self {
            Named::Program => "cmsproof",
            Named::Request | Named::EvidenceRequest => "request",
            Named::Show => "show",
            Named::Certificate => "cert",
            Named::Fit => "fit",
            Named::Matching => "match",
            Named::Check | Named::StampCheck | Named::EvidenceCheck => "check",
            Named::Questions | Named::StampQuestions | Named::EvidenceQuestions => "questions",
            Named::Attach => "attach",
            Named::Compare => "compare",
            Named::Migrate => "migrate",
            Named::Stamp => "stamp",
            Named::Evidence => "evidence",
            Named::EvidenceMake => "make",
            Named::EvidenceRenew => "renew",
            Named::EvidenceRehash => "rehash",
        }
    }

    /// What it does, at the top of its help.
    pub fn about(&self) -> &'static str {
        match self {
            Named::Program => ABOUT,
            Named::Request => REQUEST_ABOUT,
            Named::Show => SHOW_ABOUT,
            Named::Certificate => CERTIFICATE_ABOUT,
            Named::Fit => FIT_ABOUT,
            Named::Matching => MATCH_ABOUT,
            Named::Check => CHECK_ABOUT,
            Named::Questions => QUESTIONS_ABOUT,
            Named::Attach => ATTACH_ABOUT,
            Named::Compare => COMPARE_ABOUT,
            Named::Migrate => MIGRATE_ABOUT,
            Named::Stamp => STAMPS_ABOUT,
            Named::StampCheck => STAMP_CHECK_ABOUT,
            Named::StampQuestions => STAMP_QUESTIONS_ABOUT,
            Named::Evidence => EVIDENCE_ABOUT,
            Named::EvidenceCheck => EVIDENCE_CHECK_ABOUT,
            Named::EvidenceQuestions => EVIDENCE_QUESTIONS_ABOUT,
            Named::EvidenceRequest => EVIDENCE_REQUEST_ABOUT,
            Named::EvidenceMake => EVIDENCE_MAKE_ABOUT,
            Named::EvidenceRenew => EVIDENCE_RENEW_ABOUT,
            Named::EvidenceRehash => EVIDENCE_REHASH_ABOUT,
        }
    }

    /// What its help says behind the list of its words.
    pub fn lines(&self) -> &'static str {
        match self {
            Named::Program => STATUSES,
            Named::Request => REQUEST_LINES,
            Named::Show => SHOW_LINES,
            Named::Certificate => CERTIFICATE_LINES,
            Named::Fit => FIT_LINES,
            Named::Matching => MATCH_LINES,
            Named::Check => CHECK_LINES,
            Named::Questions => QUESTIONS_LINES,
            Named::Attach => ATTACH_LINES,
            Named::Compare => COMPARE_LINES,
            Named::Migrate => MIGRATE_LINES,
            Named::Stamp => STAMP_LINES,
            Named::StampCheck => STAMP_CHECK_LINES,
            Named::StampQuestions => STAMP_QUESTIONS_LINES,
            Named::Evidence => EVIDENCE_LINES,
            Named::EvidenceCheck => EVIDENCE_CHECK_LINES,
            Named::EvidenceQuestions => EVIDENCE_QUESTIONS_LINES,
            Named::EvidenceRequest => EVIDENCE_REQUEST_LINES,
            Named::EvidenceMake => EVIDENCE_MAKE_LINES,
            Named::EvidenceRenew => EVIDENCE_RENEW_LINES,
            Named::EvidenceRehash => EVIDENCE_REHASH_LINES,
        }
    }

    /// The words that it takes, in the order of its help.
    pub fn words(&self) -> &'static [Word] {
        match self {
            Named::Request => REQUEST.as_slice(),
            Named::Show => SHOW.as_slice(),
            Named::Certificate => CERTIFICATE.as_slice(),
            Named::Fit => FIT.as_slice(),
            Named::Matching => MATCH.as_slice(),
            Named::Check => CHECK.as_slice(),
            Named::Questions => QUESTIONS.as_slice(),
            Named::Attach => ATTACH.as_slice(),
            Named::Compare => COMPARE.as_slice(),
            Named::Migrate => MIGRATE.as_slice(),
            Named::StampCheck => STAMP_CHECK.as_slice(),
            Named::StampQuestions => STAMP_QUESTIONS.as_slice(),
            Named::EvidenceCheck => EVIDENCE_CHECK.as_slice(),
            Named::EvidenceQuestions => EVIDENCE_QUESTIONS.as_slice(),
            Named::EvidenceRequest => EVIDENCE_REQUEST.as_slice(),
            Named::EvidenceMake => EVIDENCE_MAKE.as_slice(),
            Named::EvidenceRenew => EVIDENCE_RENEW.as_slice(),
            Named::EvidenceRehash => EVIDENCE_REHASH.as_slice(),
            Named::Program | Named::Stamp | Named::Evidence => &[],
        }
    }
}

/// The commands, in the order of the help.
pub static ALL: [Named; 12] = [
    Named::Request,
    Named::Show,
    Named::Certificate,
    Named::Fit,
    Named::Matching,
    Named::Check,
    Named::Questions,
    Named::Stamp,
    Named::Evidence,
    Named::Attach,
    Named::Compare,
    Named::Migrate,
];

/// Those about stamps.
pub static STAMPS: [Named; 2] = [Named::StampCheck, Named::StampQuestions];

/// Those about evidence records.
pub static EVIDENCE: [Named; 6] = [
    Named::EvidenceCheck,
    Named::EvidenceQuestions,
    Named::EvidenceRequest,
    Named::EvidenceMake,
    Named::EvidenceRenew,
    Named::EvidenceRehash,
];

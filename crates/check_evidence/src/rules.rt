ghost use Rattle.std.specs.Prelude.{◌≡◌};
ghost use Rattle.check_evidence.specs.EvidenceTexts.{record_rule_word, stamp_rule_word};

use check_fit::{DeviceFault, TokenRule};
use der_core::Fault;
use std::fmt;
use thiserror::Error;

/// Why an evidence record is refused before its archive time-stamps are judged.
#[derive(Clone, Copy, Debug, PartialEq, Eq, Error)]
pub enum RecordRule {
    /// V1: it is not an evidence record.
    Malformed(Fault),
    /// V2: its data are encrypted.
    Encrypted,
    /// V3: there is no data object.
    NoData,
}

/// Which rule an archive time-stamp fails.
#[derive(Clone, Copy, Debug, PartialEq, Eq, Error)]
pub enum StampRule {
    /// W1: its algorithm isn't known, or isn't that of the first of its chain.
    Algorithm,
    /// W2: a hash value hasn't as many octets as a digest by its algorithm.
    HashLength,
    /// W3: its lists don't cover what they must.
    NotCovered,
    /// W4: its token fails this rule, where the root of its lists is due as the imprint.
    Token(TokenRule),
    /// W5: it isn't later than the one before; or it is the last, and later than the moment that is named.
    Order,
    /// W6: an algorithm doesn't hold at the end of its use.
    Weak,
    /// W7: no entry under which its token passes holds at the end of its use.
    Lapsed,
    /// W8: it is the first, and its first list has hash values that aren't of the data, where none may be.
    Others,
}

/// Why an evidence record isn't accepted. Chains, and archive time-stamps in a chain, are numbered from 1. `Display`
/// prints the line that says so, without its end.
#[derive(Clone, Copy, Debug, PartialEq, Eq, Error)]
pub enum EvidenceRefused {
    /// A rule of the record.
    Record(RecordRule),
    /// A rule of an archive time-stamp.
    Stamp {
        /// The number of its chain.
        chain: usize,
        /// Its number in the chain.
        stamp: usize,
        /// The first rule that it fails.
        rule: StampRule,
    },
    /// A device failed.
    Device(DeviceFault),
}

impl RecordRule {
    /// Its code and its name; of a record that is malformed the code alone, since a fault follows it.
    pub fn word(self) -> &'static str
        ensures { result.now ≡ record_rule_word self }
    {
        match self {
            RecordRule::Malformed(_) => "V1",
            RecordRule::Encrypted => "V2 Encrypted",
            RecordRule::NoData => "V3 NoData",
        }
    }
}

impl fmt::Display for RecordRule {
    ghost use Rattle.std.specs.Prelude.{Some};
    ghost use Rattle.check_evidence.specs.EvidenceTexts.{record_rule_text};

    ghost output = { λ r. Some (record_rule_text r) };

    fn fmt<W: fmt::Write>(&self, f: &mut fmt::Formatter<W>) -> fmt::Result {
        let word = self.word();
        match self {
            RecordRule::Malformed(fault) => write!(f, "{word} {fault}"),
            _ => f.write_str(word),
        }
    }
}

impl StampRule {
    /// Its code and its name; the code alone if the rule of a token follows it.
    pub fn word(self) -> &'static str
        ensures { result.now ≡ stamp_rule_word self }
    {
        match self {
            StampRule::Algorithm => "W1 Algorithm",
            StampRule::HashLength => "W2 HashLength",
            StampRule::NotCovered => "W3 NotCovered",
            StampRule::Token(_) => "W4",
            StampRule::Order => "W5 Order",
            StampRule::Weak => "W6 Weak",
            StampRule::Lapsed => "W7 Lapsed",
            StampRule::Others => "W8 Others",
        }
    }
}

impl fmt::Display for StampRule {
    ghost use Rattle.std.specs.Prelude.{Some};
    ghost use Rattle.check_evidence.specs.EvidenceTexts.{stamp_rule_text};

    ghost output = { λ r. Some (stamp_rule_text r) };

    fn fmt<W: fmt::Write>(&self, f: &mut fmt::Formatter<W>) -> fmt::Result {
        let word = self.word();
        match self {
            StampRule::Token(rule) => write!(f, "{word} {rule}"),
            _ => f.write_str(word),
        }
    }
}

impl fmt::Display for EvidenceRefused {
    ghost use Rattle.std.specs.Prelude.{Some};
    ghost use Rattle.check_evidence.specs.EvidenceTexts.{evidence_refused_text};

    ghost output = { λ r. Some (evidence_refused_text r) };

    fn fmt<W: fmt::Write>(&self, f: &mut fmt::Formatter<W>) -> fmt::Result {
        match self {
            EvidenceRefused::Record(RecordRule::Malformed(fault)) => write!(f, "malformed {fault}"),
            EvidenceRefused::Record(rule) => write!(f, "refused {rule}"),
            EvidenceRefused::Stamp { chain, stamp, rule } => {
                write!(f, "refused chain {chain} stamp {stamp} {rule}")
            }
            EvidenceRefused::Device(fault) => write!(f, "failed {fault}"),
        }
    }
}

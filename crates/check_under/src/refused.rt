use check_evidence::{EvidenceRefused, RecordRule};
use check_fit::Refused;
use std::fmt;
use thiserror::Error;

/// Why a file isn't accepted under an evidence record. `Display` prints the line that says so, without its end.
#[derive(Clone, Copy, Debug, PartialEq, Eq, Error)]
pub enum UnderRefused {
    /// The record is refused, or a device failed while it was judged.
    Evidence(EvidenceRefused),
    /// The record shows the file, and the file is refused, or a device failed while it was judged.
    Signed(Refused),
}

impl fmt::Display for UnderRefused {
    ghost use Rattle.std.specs.Prelude.{Some};
    ghost use Rattle.check_under.specs.UnderTexts.{under_refused_text};

    ghost output = { λ r. Some (under_refused_text r) };

    fn fmt<W: fmt::Write>(&self, f: &mut fmt::Formatter<W>) -> fmt::Result {
        match self {
            UnderRefused::Evidence(EvidenceRefused::Record(RecordRule::Malformed(fault))) => {
                write!(f, "malformed record {fault}")
            }
            UnderRefused::Evidence(EvidenceRefused::Record(rule)) => write!(
                f,
                "refused record {rule}"
            ),
            UnderRefused::Evidence(EvidenceRefused::Stamp { chain, stamp, rule }) => {
                write!(f, "refused record chain {chain} stamp {stamp} {rule}")
            }
            UnderRefused::Evidence(EvidenceRefused::Device(fault)) => write!(f, "failed {fault}"),
            UnderRefused::Signed(refused) => write!(f, "{refused}"),
        }
    }
}

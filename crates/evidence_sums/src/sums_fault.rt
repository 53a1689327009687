use std::alloc::{AllocError, AllocFailed};
use std::fmt;
use thiserror::Error;

/// Which rule a text of sums fails.
#[derive(Clone, Copy, Debug, PartialEq, Eq, Error)]
pub enum SumsRule {
    /// U1: a line isn't as `sha256sum` and its kin write it.
    Line,
    /// U2: there is no line.
    Empty,
    /// U5: a name is empty, begins with `/`, has an empty part, a part `.` or `..`, or an octet 0.
    Name,
    /// U6: a name is that of a line before it.
    NameTwice,
    /// Memory was refused.
    OutOfMemory,
}

/// Why a text of sums is refused. `Display` prints the rule, and of `Line` the line.
#[derive(Clone, Copy, Debug, PartialEq, Eq, Error)]
pub struct SumsFault {
    /// The rule that the text fails.
    pub rule: SumsRule,
    /// The number of the line that fails it, from 1 on, or 0 if there is no line or memory was refused.
    pub line: usize,
}

impl fmt::Display for SumsRule {
    ghost use Rattle.std.specs.Prelude.{Some};
    ghost use Rattle.evidence_sums.specs.FaultTexts.{sums_rule_text};

    ghost output = { λ r. Some (sums_rule_text r) };

    fn fmt<W: fmt::Write>(&self, f: &mut fmt::Formatter<W>) -> fmt::Result {
        f.write_str(match self {
            SumsRule::Line => "sums U1 Line",
            SumsRule::Empty => "sums U2 Empty",
            SumsRule::Name => "refused U5 Name",
            SumsRule::NameTwice => "refused U6 NameTwice",
            SumsRule::OutOfMemory => "failed memory",
        })
    }
}

impl fmt::Display for SumsFault {
    ghost use Rattle.std.specs.Prelude.{Some};
    ghost use Rattle.evidence_sums.specs.FaultTexts.{sums_fault_text};

    ghost output = { λ f. Some (sums_fault_text f) };

    fn fmt<W: fmt::Write>(&self, f: &mut fmt::Formatter<W>) -> fmt::Result {
        match self.rule {
            SumsRule::Line => write!(f, "{} at line {}", self.rule, self.line),
            _ => write!(f, "{}", self.rule),
        }
    }
}

/// A lack of memory is reported without a line.
const NO_MEMORY: SumsFault = SumsFault {
    rule: SumsRule::OutOfMemory,
    line: 0,
};

impl From<AllocError> for SumsFault {
    ghost use Rattle.std.specs.Prelude.{◌≡◌};
    ghost use Rattle.evidence_sums.specs.declared.sums_fault.SumsRule.TheVariants.{OutOfMemory};

    // A lack of memory becomes `OutOfMemory` at line 0.
    ghost from_gives = { λ _ f. f ≡ record { rule = OutOfMemory; line = 0 } };

    fn from(_e: AllocError) -> SumsFault {
        NO_MEMORY
    }
}

impl<T: Drop> From<AllocFailed<T>> for SumsFault {
    ghost use Rattle.std.specs.Prelude.{◌≡◌};
    ghost use Rattle.evidence_sums.specs.declared.sums_fault.SumsRule.TheVariants.{OutOfMemory};

    // A lack of memory becomes `OutOfMemory` at line 0.
    ghost from_gives = { λ _ f. f ≡ record { rule = OutOfMemory; line = 0 } };

    fn from(_e: AllocFailed<T>) -> SumsFault {
        NO_MEMORY
    }
}

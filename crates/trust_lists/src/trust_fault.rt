use std::alloc::{AllocError, AllocFailed};
use std::fmt;
use thiserror::Error;

/// Which rule a text fails that should be a trust list.
#[derive(Clone, Copy, Debug, PartialEq, Eq, Error)]
pub enum TrustRule {
    /// L1: its first line is neither `cmsproof trust 1` nor `cmsproof trust 2`.
    Version,
    /// L2: a line is of another form.
    Line,
    /// L3: the octets of a line encode no certificate.
    Certificate,
    /// L4: memory was refused.
    OutOfMemory,
    /// L5: a line has both moments, and the first is later than the last.
    Period,
}

/// Why a text isn't a trust list. `Display` prints the rule and the line.
#[derive(Clone, Copy, Debug, PartialEq, Eq, Error)]
pub struct TrustFault {
    /// The rule that the text fails.
    pub rule: TrustRule,
    /// The number of the line that fails it, from 1 on, or 0 if memory was refused. All lines are counted.
    pub line: usize,
}

impl fmt::Display for TrustRule {
    ghost use Rattle.std.specs.Prelude.{Some};
    ghost use Rattle.trust_lists.specs.FaultTexts.{trust_rule_text};

    ghost output = { λ r. Some (trust_rule_text r) };

    fn fmt<W: fmt::Write>(&self, f: &mut fmt::Formatter<W>) -> fmt::Result {
        f.write_str(match self {
            TrustRule::Version => "L1 Version",
            TrustRule::Line => "L2 Line",
            TrustRule::Certificate => "L3 Certificate",
            TrustRule::OutOfMemory => "L4 OutOfMemory",
            TrustRule::Period => "L5 Period",
        })
    }
}

impl fmt::Display for TrustFault {
    ghost use Rattle.std.specs.Prelude.{Some};
    ghost use Rattle.trust_lists.specs.FaultTexts.{trust_fault_text};

    ghost output = { λ f. Some (trust_fault_text f) };

    fn fmt<W: fmt::Write>(&self, f: &mut fmt::Formatter<W>) -> fmt::Result {
        write!(f, "{} at line {}", self.rule, self.line)
    }
}

/// A lack of memory is reported without a line.
const NO_MEMORY: TrustFault = TrustFault {
    rule: TrustRule::OutOfMemory,
    line: 0,
};

impl From<AllocError> for TrustFault {
    ghost use Rattle.std.specs.Prelude.{◌≡◌};
    ghost use Rattle.trust_lists.specs.declared.trust_fault.TrustRule.TheVariants.{OutOfMemory};

    // A lack of memory becomes `OutOfMemory` at line 0.
    ghost from_gives = { λ _ f. f ≡ record { rule = OutOfMemory; line = 0 } };

    fn from(_e: AllocError) -> TrustFault {
        NO_MEMORY
    }
}

impl<T: Drop> From<AllocFailed<T>> for TrustFault {
    ghost use Rattle.std.specs.Prelude.{◌≡◌};
    ghost use Rattle.trust_lists.specs.declared.trust_fault.TrustRule.TheVariants.{OutOfMemory};

    // A lack of memory becomes `OutOfMemory` at line 0.
    ghost from_gives = { λ _ f. f ≡ record { rule = OutOfMemory; line = 0 } };

    fn from(_e: AllocFailed<T>) -> TrustFault {
        NO_MEMORY
    }
}

impl From<AllocError> for TrustRule {
    ghost use Rattle.std.specs.Prelude.{◌≡◌};
    ghost use Rattle.trust_lists.specs.declared.trust_fault.TrustRule.TheVariants.{OutOfMemory};

    // A lack of memory becomes `OutOfMemory`.
    ghost from_gives = { λ _ r. r ≡ OutOfMemory };

    fn from(_e: AllocError) -> TrustRule {
        TrustRule::OutOfMemory
    }
}

use std::alloc::{AllocError, AllocFailed};
use std::fmt;
use thiserror::Error;

/// Which rule a text fails that should be an answers list.
#[derive(Clone, Copy, Debug, PartialEq, Eq, Error)]
pub enum AnswersRule {
    /// B1: its first line isn't `cmsproof answers 1`.
    Version,
    /// B2: a line doesn't have five fields with one space between, each `-` or pairs of hexadecimal digits.
    Line,
    /// B3: memory was refused.
    OutOfMemory,
}

/// Why a text isn't an answers list. `Display` prints the rule and the line.
#[derive(Clone, Copy, Debug, PartialEq, Eq, Error)]
pub struct AnswersFault {
    /// The rule that the text fails.
    pub rule: AnswersRule,
    /// The number of the line that fails it, from 1 on, or 0 if memory was refused. All lines are counted.
    pub line: usize,
}

impl fmt::Display for AnswersRule {
    ghost use Rattle.std.specs.Prelude.{Some};
    ghost use Rattle.list_answers.specs.FaultTexts.{answers_rule_text};

    ghost output = { λ r. Some (answers_rule_text r) };

    fn fmt<W: fmt::Write>(&self, f: &mut fmt::Formatter<W>) -> fmt::Result {
        f.write_str(match self {
            AnswersRule::Version => "B1 Version",
            AnswersRule::Line => "B2 Line",
            AnswersRule::OutOfMemory => "B3 OutOfMemory",
        })
    }
}

impl fmt::Display for AnswersFault {
    ghost use Rattle.std.specs.Prelude.{Some};
    ghost use Rattle.list_answers.specs.FaultTexts.{answers_fault_text};

    ghost output = { λ f. Some (answers_fault_text f) };

    fn fmt<W: fmt::Write>(&self, f: &mut fmt::Formatter<W>) -> fmt::Result {
        write!(f, "{} at line {}", self.rule, self.line)
    }
}

/// A lack of memory is reported without a line.
const NO_MEMORY: AnswersFault = AnswersFault {
    rule: AnswersRule::OutOfMemory,
    line: 0,
};

impl From<AllocError> for AnswersFault {
    ghost use Rattle.std.specs.Prelude.{◌≡◌};
    ghost use Rattle.list_answers.specs.declared.answers_fault.AnswersRule.TheVariants.{OutOfMemory};

    // A lack of memory becomes `OutOfMemory` at line 0.
    ghost from_gives = { λ _ f. f ≡ record { rule = OutOfMemory; line = 0 } };

    fn from(_e: AllocError) -> AnswersFault {
        NO_MEMORY
    }
}

impl<T: Drop> From<AllocFailed<T>> for AnswersFault {
    ghost use Rattle.std.specs.Prelude.{◌≡◌};
    ghost use Rattle.list_answers.specs.declared.answers_fault.AnswersRule.TheVariants.{OutOfMemory};

    // A lack of memory becomes `OutOfMemory` at line 0.
    ghost from_gives = { λ _ f. f ≡ record { rule = OutOfMemory; line = 0 } };

    fn from(_e: AllocFailed<T>) -> AnswersFault {
        NO_MEMORY
    }
}

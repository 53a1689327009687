use check_fit::SignerRule;
use cms_types::CmsFault;
use std::fmt;
use thiserror::Error;

/// One of the two files.
#[derive(Clone, Copy, Debug, PartialEq, Eq)]
pub enum Which {
    /// The first.
    First,
    /// The second.
    Second,
}

/// Which rule a file fails that is to be compared.
#[derive(Clone, Copy, Debug, PartialEq, Eq)]
pub enum CompareRule {
    /// E1: it is not a ContentInfo that holds a SignedData.
    Malformed(CmsFault),
    /// E2: it has no signer of this number.
    NoSuchSigner,
    /// E3: its content is not in it.
    NoContent,
    /// E4: the signer fails this one of S1 to S6, where SHA-1 is allowed.
    Rule(SignerRule),
}

/// Why two files are not compared. `Display` is the line that says so, without its end.
#[derive(Clone, Copy, Debug, PartialEq, Eq, Error)]
pub struct CompareFault {
    /// The file that fails a rule: the first, if both do.
    pub which: Which,
    /// The first rule that it fails.
    pub rule: CompareRule,
}

impl fmt::Display for Which {
    ghost use Rattle.std.specs.Prelude.{Some};
    ghost use Rattle.cms_compare.specs.FaultTexts.{which_text};

    ghost output = { λ w. Some (which_text w) };

    fn fmt<W: fmt::Write>(&self, f: &mut fmt::Formatter<W>) -> fmt::Result {
        f.write_str(match self {
            Which::First => "first ",
            Which::Second => "second ",
        })
    }
}

impl fmt::Display for CompareFault {
    ghost use Rattle.std.specs.Prelude.{Some};
    ghost use Rattle.cms_compare.specs.FaultTexts.{compare_fault_text};

    ghost output = { λ f. Some (compare_fault_text f) };

    fn fmt<W: fmt::Write>(&self, f: &mut fmt::Formatter<W>) -> fmt::Result {
        let which = self.which;
        match self.rule {
            CompareRule::Malformed(CmsFault::Malformed(fault)) => write!(
                f,
                "malformed {which}{fault}"
            ),
            CompareRule::Malformed(CmsFault::NotSignedData) => write!(
                f,
                "refused {which}E1 NotSignedData"
            ),
            CompareRule::Malformed(CmsFault::OutOfMemory) => write!(
                f,
                "refused {which}E1 OutOfMemory"
            ),
            CompareRule::NoSuchSigner => write!(f, "refused {which}E2 NoSuchSigner"),
            CompareRule::NoContent => write!(f, "refused {which}E3 NoContent"),
            CompareRule::Rule(rule) => {
                let text = rule.text();
                write!(f, "refused {which}E4 {text}")
            }
        }
    }
}

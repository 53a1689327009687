ghost use Rattle.std.specs.Prelude.{◌≡◌};
ghost use Rattle.std.specs.Option.{option_copied};
ghost use Rattle.der_core.specs.Reading.{Gives};
ghost use Rattle.tsp_types.specs.TstReading.{accuracy_in};

use der_core::tags::INTEGER;
use der_core::{Cursor, Fault, Int};
use std::marker::Model;

/// The identifier octets of the parts that have one of their own, `[0] IMPLICIT` and `[1] IMPLICIT` (RFC 3161 2.4.2).
const MILLIS: u8 = 0x80;

const MICROS: u8 = 0x81;

/// How far the time of a time-stamp may be off (RFC 3161 2.4.2), as a view: the numbers as they are encoded, of any
/// range.
///
/// Contracts see an `AccuracyValue` (`specs/TstValue.antt`).
#[derive(Debug, Drop)]
pub struct Accuracy<'a> {
    seconds: Option<Int<'a>>,
    millis: Option<Int<'a>>,
    micros: Option<Int<'a>>,
}

impl<'a> Model for Accuracy<'a> {
    ghost use Rattle.tsp_types.specs.TstValue.{AccuracyValue};

    ghost Value = { AccuracyValue };

    ghost view = { λ a. record { seconds = a.seconds; millis = a.millis; micros = a.micros } };
}

impl<'a> Accuracy<'a> {
    // Accuracy ::= SEQUENCE { seconds INTEGER OPTIONAL, millis [0] INTEGER (1..999) OPTIONAL,
    //   micros [1] INTEGER (1..999) OPTIONAL }
    #[tactic(auto, unfolding(crate::specs::TstReading::accuracy_in))]
    pub(crate) fn fields_of(mut parts: Cursor<'a>) -> Result<Accuracy<'a>, Fault>
        ensures { Gives (λ a. a) result (accuracy_in parts.entry) }
    {
        let seconds = parts.optional_integer(INTEGER)?;
        let millis = parts.optional_integer(MILLIS)?;
        let micros = parts.last_integer(MICROS)?;
        parts.end()?;
        Ok(Accuracy {
            seconds,
            millis,
            micros,
        })
    }

    /// The whole seconds.
    pub fn seconds(&self) -> Option<&Int<'a>>
        ensures { option_copied result ≡ self.now.seconds }
    {
        self.seconds.as_ref()
    }

    /// The thousandths of a second.
    pub fn millis(&self) -> Option<&Int<'a>>
        ensures { option_copied result ≡ self.now.millis }
    {
        self.millis.as_ref()
    }

    /// The millionths of a second.
    pub fn micros(&self) -> Option<&Int<'a>>
        ensures { option_copied result ≡ self.now.micros }
    {
        self.micros.as_ref()
    }
}

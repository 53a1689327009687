ghost use Rattle.std.specs.Prelude.{◌≡◌};
ghost use Rattle.der_core.specs.Reading.{Moves, within};
ghost use Rattle.der_time.specs.Moments.{generalized_moment};
ghost use Rattle.der_time.specs.TimeReading.{generalized_text_in, time_at};
ghost use Rattle.der_time.specs.TimeValue.{moment_of};

use crate::generalized::read_generalized;
use crate::moment::Moment;
use crate::utc::read_utc;
use der_core::tags::{GENERALIZED_TIME, UTC_TIME};
use der_core::{Cursor, Fault};
use std::marker::Model;

/// A GeneralizedTime (X.690 11.7; RFC 3161 2.4.2): its text and the moment that it denotes, as a view.
///
/// Contracts see the list of the octets of its text.
#[derive(Debug, Drop)]
pub struct GeneralizedTime<'a> {
    text: &'a [u8],
    moment: Moment,
}

impl<'a> Model for GeneralizedTime<'a> {
    ghost use Rattle.std.specs.Prelude.{◌≡◌, ℕ, List};
    ghost use Rattle.der_time.specs.Moments.{generalized_moment};

    ghost Value = { List ℕ };

    ghost view = { λ t. t.text.now };

    ghost invariant = { λ t. t.moment ≡ generalized_moment t.text.now };
}

impl<'a> GeneralizedTime<'a> {
    /// The GeneralizedTime at the cursor, which is moved past it.
    ///
    /// Faults: those of `Cursor::expect` for a GeneralizedTime, and `Time` at its contents if they are not those of
    /// one. The cursor is then unmoved.
    pub fn read(parts: &mut Cursor<'a>) -> Result<GeneralizedTime<'a>, Fault>
        // Returns the time or the fault that its reading gives; after a fault the cursor has not moved.
        ensures { Moves (λ t. t) result parts.old parts.new (within 0x18 generalized_text_in parts.old) }
    {
        let mut ahead = parts.again();
        let (text, at) = ahead.contents(GENERALIZED_TIME)?;
        let moment = read_generalized(text, at)?;
        *parts = ahead;
        Ok(GeneralizedTime { text, moment })
    }

    /// The moment that it denotes.
    pub fn moment(&self) -> Moment
        ensures { result ≡ generalized_moment self.now }
    {
        self.moment
    }
}

/// A time of a certificate (RFC 5280 4.1.2.5), a UTCTime or a GeneralizedTime: its text and the moment that it denotes,
/// as a view.
///
/// Contracts see a `TimeValue` (`specs/TimeValue.antt`).
#[derive(Debug, Drop)]
pub struct Time<'a> {
    is_utc: bool,
    text: &'a [u8],
    moment: Moment,
}

impl<'a> Model for Time<'a> {
    ghost use Rattle.std.specs.Prelude.{◌≡◌};
    ghost use Rattle.der_time.specs.TimeValue.{TimeValue, moment_of};
    ghost use Rattle.der_time.specs.TimeReading.{time_value};

    ghost Value = { TimeValue };

    ghost view = { λ t. time_value t.is_utc t.text.now };

    ghost invariant = { λ t. t.moment ≡ moment_of (time_value t.is_utc t.text.now) };
}

impl<'a> Time<'a> {
    /// The time at the cursor, which is moved past it.
    ///
    /// Faults: if no UTCTime begins there, those of `GeneralizedTime::read`; else those of the UTCTime, `Time` at its
    /// contents if they are not those of one. The cursor is then unmoved.
    // Time ::= CHOICE { utcTime UTCTime, generalTime GeneralizedTime }
    #[tactic(auto, unfolding(crate::specs::TimeReading::time_at))]
    pub fn read(parts: &mut Cursor<'a>) -> Result<Time<'a>, Fault>
        // Returns the time or the fault that its reading gives; after a fault the cursor has not moved.
        ensures { Moves (λ t. t) result parts.old parts.new (time_at parts.old) }
    {
        let mut ahead = parts.again();
        let is_utc = ahead.has(UTC_TIME);
        let (text, moment) = if is_utc {
            let (text, at) = ahead.contents(UTC_TIME)?;
            (text, read_utc(text, at)?)
        } else {
            let time = GeneralizedTime::read(&mut ahead)?;
            (time.text, time.moment)
        };
        *parts = ahead;
        Ok(Time {
            is_utc,
            text,
            moment,
        })
    }

    /// The moment that it denotes.
    pub fn moment(&self) -> Moment
        ensures { result ≡ moment_of self.now }
    {
        self.moment
    }
}

//! What holds of the definitions: there is no code to run.

ghost use Rattle.der_time.specs.Calendar.{YearsAreGregorian, MonthsAreTheYear, DaysAreCivil};
ghost use Rattle.der_time.specs.Moments.{TextsAreUnique, EpochIsADay, EndIsADay};

/// A year has 365 days, and 366 if it is a leap year of the Gregorian calendar; its months together have as many days.
/// The two moments that the code has as numbers are, by this calendar, 1970-01-01, from which `Moment::nanos` counts,
/// and 10000-01-01, which every moment is before. Its days are those that `jiff` counts.
pub fn calendar_is_gregorian()
    // The days before the year 0000 are 0, and each year adds 365, or 366 if it is a leap year.
    ensures years { YearsAreGregorian }
    // The days of the twelve months add up to those of the year.
    ensures months { MonthsAreTheYear }
    // The moment that `Moment::nanos` counts from is 1970-01-01 00:00:00.
    ensures epoch { EpochIsADay }
    // The moment that every moment is before is 10000-01-01 00:00:00.
    ensures end { EndIsADay }
    // The days are those that `jiff` counts from 1970-01-01, 719,528 apart.
    ensures civil { DaysAreCivil }
{}

/// Two texts of a GeneralizedTime that denote the same moment are the same text.
pub fn texts_are_unique()
    ensures { TextsAreUnique }
{}

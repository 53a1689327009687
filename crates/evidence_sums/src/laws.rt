//! What holds of the definitions: there is no code to run.

ghost use Rattle.evidence_sums.specs.Rows.{RecordsRows, SumsRows};
ghost use Rattle.evidence_sums.specs.Written.{ReadingFitsWriting};

/// The worked rows: texts of sums, with what they state, and texts that are none, with their first fault.
pub fn rows_hold()
    // Of texts with a line for each file.
    ensures sums { SumsRows }
    // Of texts with several lines for a record.
    ensures records { RecordsRows }
{}

/// A line of sums is the one that is written for the digest and the name that it states, and for no others.
pub fn reading_fits_writing()
    ensures { ReadingFitsWriting }
{}

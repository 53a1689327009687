//! What holds of the definitions: there is no code to run.

ghost use Rattle.trust_lists.specs.Rows.{TrustRows};
ghost use Rattle.trust_lists.specs.ReadBack.{SaidIsGood, WrittenIsSaid, WrittenOnce, WrittenAgain};

/// The worked rows: texts that are trust lists, with the entries that they state, and texts that are none, with their
/// first fault.
pub fn rows_hold()
    ensures { TrustRows }
{}

/// The text that is written for a trust list states that list: it is read back as the same entries, and a list that was
/// read from a written text is written as the same octets.
pub fn lists_are_read_back()
    // Every entry that a text states is good.
    ensures good { SaidIsGood }
    // The text that good entries are written as states these entries.
    ensures said { WrittenIsSaid }
    // Entries are written as at most one text.
    ensures once { WrittenOnce }
    // A list that was written, read and written again is the same octets.
    ensures again { WrittenAgain }
{}

//! Worked rows: there is no code to run.

ghost use Rattle.check_verdict_rows.specs.RefusalRows.{AllRefusalRows};
ghost use Rattle.check_verdict_rows.specs.SeveralSigners.{SeveralSignersRows};
ghost use Rattle.check_verdict_rows.specs.NamedSigners.{NamedSignerRows};
ghost use Rattle.check_verdict_rows.specs.Fractions.{FractionRows};
ghost use Rattle.check_verdict_rows.specs.OtherEntries.{OtherEntryRows};
ghost use Rattle.check_verdict_rows.specs.LongSources.{LongSourceRows};

/// Files that C1 to C5 refuse, with any trust list; two signers of one content; signers whose attributes name a
/// certificate
/// (RFC 5035 4); times with fractions of a second, at the ends of periods (RFC 3161 2.4.2); entries that are known by a
/// key identifier (RFC 5652 5.3), and entries that fail two rules; stamps of sources that are too long.
pub fn verdict_rows_hold()
    // Files that C1 to C5 refuse, under any trust list and answers.
    ensures refusals { AllRefusalRows }
    // Several signers of one content: accepted with the latest moment, or refused by the first that fails.
    ensures several { SeveralSignersRows }
    // Signers whose attributes name another certificate or their own.
    ensures named { NamedSignerRows }
    // Times half a second inside and outside of the ends of periods.
    ensures fractions { FractionRows }
    // Entries that are known by a key identifier, and entries that fail two rules.
    ensures entries { OtherEntryRows }
    // A stamp of a source of 2^40 octets, and of one with one more, which is X5 and nothing else.
    ensures sources { LongSourceRows }
{}

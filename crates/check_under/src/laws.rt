//! The laws: there is no code to run.

ghost use Rattle.check_verdict.specs.Beside.{TestsHolding, AuthoritiesBeside, SignersBeside};
ghost use Rattle.check_under.specs.Laws.{UnderOneMoment, UnderInTime, UnderNeverBoth, QuestionsUnder};
ghost use Rattle.check_under.specs.Laws.{AcceptedBeside, AcceptedUnder, YesUnderSuffices, RefusalsUnderSuffice};
ghost use Rattle.check_under.specs.TokensUnder.{TokensPassUnder, TokensRunOutUnder};
ghost use Rattle.check_under.specs.Rows.{BesideRows, UnderRows};

use check_evidence::records_are_judged;
use check_verdict::questions_suffice;
use evidence_questions::record_answers_suffice;

/// A file is accepted under a record with at most one moment, which isn't later than the record's, and never also
/// refused; what a check under it asks is asked of the file by itself too; and what is accepted with a moment that
/// isn't later than that of the record is accepted beside the record, if the entries of all authorities hold then.
pub fn under_is_judged()
    // It is accepted with at most one moment.
    ensures one_moment { UnderOneMoment }
    // Which isn't later than the record's.
    ensures in_time { UnderInTime }
    // And never both accepted and refused.
    ensures never_both { UnderNeverBoth }
    // Its questions by the entries as they count are among those by the list.
    ensures questions { QuestionsUnder }
    // What is accepted by itself is accepted beside a record, if each authority's entry holds at its moment.
    ensures accepted { AcceptedBeside }
    // So it is accepted under a record, if the algorithms that are allowed are those that hold then.
    ensures under { AcceptedUnder }
{
    records_are_judged();
}

/// Acceptance and refusal under a record depend only on the verifier's answers to the questions of the record and of
/// the file.
pub fn under_answers_suffice()
    // A file is accepted exactly if it is under other answers that agree on these, at the same moment.
    ensures yes { YesUnderSuffices }
    // It is refused exactly if it is under those answers, by the same refusal.
    ensures refusals { RefusalsUnderSuffice }
{
    record_answers_suffice();
    questions_suffice();
}

/// Beside a record an authority's entry counts at a moment exactly if it holds at it and at the record's moment, which
/// isn't earlier; a signer's counts as ever.
pub fn entries_count_beside()
    // An authority's.
    ensures authorities { AuthoritiesBeside }
    // A signer's.
    ensures signers { SignersBeside }
    // The test by which an entry is cut says whether it holds.
    ensures tests { TestsHolding }
{}

/// A token passes by the entries as they count exactly if it isn't later than the record's moment, and passes under an
/// entry that holds at its own moment and at the record's; and so it is refused by K10 to K14.
pub fn tokens_pass_under()
    // It passes so.
    ensures pass { TokensPassUnder }
    // The first of K10 to K14 that it fails is the first by these words.
    ensures run_out { TokensRunOutUnder }
{}

/// The worked rows of entries as they count beside a record, and of a file beside some.
pub fn under_rows_hold()
    // Entries at ten o'clock.
    ensures beside { BesideRows }
    // The file with a token of ten o'clock.
    ensures under { UnderRows }
{}

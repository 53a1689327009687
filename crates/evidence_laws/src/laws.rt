//! The laws: there is no code to run.

ghost use Rattle.evidence_laws.specs.Laws.{RecordsAreJudged, RecordsHaveOneRefusal, GroupsAreShown};
ghost use Rattle.evidence_laws.specs.Rows.{EndRows, BesideRows};

use check_evidence::roots_are_unique;

/// Each evidence record shows a moment or is refused, and it is refused by one rule of one archive time-stamp.
/// `records_are_judged` of `check_evidence` says that it is never both, and that the moment is one.
pub fn records_are_judged()
    // Each record of octets shows a moment for data objects, or is refused.
    ensures judged { RecordsAreJudged }
    // A record is refused by one rule of one time-stamp, whichever fault of form it names.
    ensures one_refusal { RecordsHaveOneRefusal }
{
    roots_are_unique();
}

/// A group of data is shown if each of its members is (RFC 4998, 4.3 and 5.3).
pub fn groups_are_shown()
    ensures { GroupsAreShown }
{}

/// The worked rows of ends of algorithms, and of places in chains.
pub fn evidence_rows_hold()
    // Moments at which algorithms hold.
    ensures ends { EndRows }
    // What stands beside a time-stamp.
    ensures beside { BesideRows }
{}

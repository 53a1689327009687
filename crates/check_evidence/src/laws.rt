//! What holds of the definitions of evidence records that are judged: there is no code to run.

ghost use Rattle.check_evidence.specs.Laws.{RootsAreUnique, GroupsCoverMembers, MembersHaveTheRoot};
ghost use Rattle.check_evidence.specs.Laws.{RecordsShowOneMoment, RecordsNeverBoth};
ghost use Rattle.check_evidence.specs.Rows.{RootRows, OrderRows, CoveredRows, CoveringRows};

/// Lists of hash values have at most one root, and what covers a group of data covers each of them.
pub fn roots_are_unique()
    // Lists have at most one root.
    ensures unique { RootsAreUnique }
    // Lists that cover a group cover each member of it.
    ensures members { GroupsCoverMembers }
    // And they have the same root for each member.
    ensures same_root { MembersHaveTheRoot }
{}

/// An evidence record shows at most one moment, and none if it is refused.
pub fn records_are_judged()
    // A record shows at most one moment for data objects.
    ensures one_moment { RecordsShowOneMoment }
    // No record both shows a moment and is refused.
    ensures never_both { RecordsNeverBoth }
{}

/// The worked rows of roots, and of what they cover.
pub fn evidence_rules_hold()
    // The roots of lists.
    ensures roots { RootRows }
    // Which values stand in ascending order.
    ensures order { OrderRows }
    // What lists cover.
    ensures covered { CoveredRows }
    // What archive time-stamps must cover.
    ensures covering { CoveringRows }
{}

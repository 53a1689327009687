//! What holds of evidence records that are judged: there is no code to run.

ghost use Rattle.judge_evidence.specs.Going.{PlacesAreOrdered, NeverBeforeItself, NeverBothBefore};
ghost use Rattle.judge_evidence.specs.Going.{FirstBegins, NextGoesOn, LastEnds};
ghost use Rattle.judge_evidence.specs.ShowingLaws.{RecordsShowByChains, MembersAreShown, MoreTrustShows};
ghost use Rattle.judge_evidence.specs.ShowingLaws.{ChainsShowBefore, RecordsShowBefore};

use check_evidence::roots_are_unique;

/// The places of archive time-stamps stand in one order, and going from the first to the next meets each of them.
pub fn places_are_ordered()
    // Of two places one is before the other, or they are the same.
    ensures ordered { PlacesAreOrdered }
    // No place is before itself.
    ensures never_itself { NeverBeforeItself }
    // No two are before each other.
    ensures never_both { NeverBothBefore }
    // None is before the first.
    ensures begins { FirstBegins }
    // Before the next are the one that it comes after and those before that.
    ensures goes_on { NextGoesOn }
    // Each is before the last or is the last.
    ensures ends { LastEnds }
{}

/// What is shown of a group of data objects is shown of each of them, unless the first list may have no other hash
/// values (RFC 4998 5.3).
pub fn members_are_shown()
    ensures { MembersAreShown }
{
    roots_are_unique();
}

/// A record shows the same to whoever trusts more.
pub fn more_trust_shows()
    ensures { MoreTrustShows }
{}

/// A record shows what its chains show.
pub fn records_show_by_chains()
    ensures { RecordsShowByChains }
{}

/// Without the last archive time-stamp chains show the same at its moment, and so do records: a renewal shows no more
/// than what it renews (RFC 4998 5.3).
pub fn records_show_before()
    // Chains show it.
    ensures chains { ChainsShowBefore }
    // And so do records.
    ensures records { RecordsShowBefore }
{}

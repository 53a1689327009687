//! What holds of the definitions of records that are made and renewed: there is no code to run.
ghost use Rattle.evidence_making.specs.Laws.{MadeStampsStand, MadeRecordsShow, LeavesHaveOneRecord};
ghost use Rattle.evidence_making.specs.RenewalLaws.{NamesAreFound, ChainsShowAfter, RenewedRecordsShow};
ghost use Rattle.evidence_making.specs.RenewalLaws.{RehashedRecordsShow, RenewedStampsStand, RehashedStampsStand};
ghost use Rattle.evidence_making.specs.Rows.{MadeRows, LeafRecordRows, RenewedRows};
ghost use Rattle.evidence_making.specs.RenewalRows.{StampingRows, RootRows, LastRows, DoneRows};
ghost use Rattle.evidence_making.specs.Stamping.{StampsAreOneCase, StandingStamps, StampsHaveTime};

/// A record that is made of a token over the root of a tree and the lists of a leaf shows the moment of the token for
/// the data object of the leaf, if the token stands (RFC 4998 4.2, 5.3).
pub fn made_records_show()
    // Where the token stands on the root, the archive time-stamp stands.
    ensures stands { MadeStampsStand }
    // Where the archive time-stamp stands, the record shows its moment, and has no hash value of other data objects
    // beside that of the leaf.
    ensures shows { MadeRecordsShow }
    // A leaf of a tree has one such record at most.
    ensures one { LeavesHaveOneRecord }
{}

/// The worked rows of records that are made and renewed.
pub fn making_rows_hold()
    // Octets of records that are made.
    ensures made { MadeRows }
    // The records of leaves of trees.
    ensures leaves { LeafRecordRows }
    // Octets of records that are renewed.
    ensures renewed { RenewedRows }
{}

/// The worked rows of what tokens stamp, what renewals stand on, and records that are renewed already.
pub fn renewal_rows_hold()
    // What tokens stamp.
    ensures stamping { StampingRows }
    // Roots over leaves.
    ensures roots { RootRows }
    // What renewals stand on.
    ensures last { LastRows }
    // Chains that are renewed by a token.
    ensures done { DoneRows }
{}

/// A record that is renewed, by a time-stamp or by a hash tree, still shows what it showed at the moment of the new
/// time-stamp, if that stands (RFC 4998 5.2, 5.3).
pub fn renewed_records_show()
    // An algorithm is added where none of those that are there names it.
    ensures named { NamesAreFound }
    // Chains still show it.
    ensures chains { ChainsShowAfter }
    // So do records that are renewed by a time-stamp.
    ensures renewed { RenewedRecordsShow }
    // And those that are renewed by a hash tree.
    ensures rehashed { RehashedRecordsShow }
{}

/// The new time-stamp of a record that is renewed stands, if its token stands on the root of a tree, its lists are
/// those of the leaf that it must cover, and it is later than the last (RFC 4998 5.2, 5.3).
pub fn new_stamps_stand()
    // Of a record that is renewed by a time-stamp, if the tree is by the algorithm of the chain.
    ensures renewed { RenewedStampsStand }
    // Of a record that is renewed by a hash tree.
    ensures rehashed { RehashedStampsStand }
{}

/// A token stamps a root, or states another imprint, or is no token; one that stands on a root stamps it (RFC 3161
/// 2.4.2; RFC 4998 4.2).
pub fn stamps_are_of_roots()
    // Only one of the three holds, and of the first with one moment.
    ensures one_case { StampsAreOneCase }
    // A token that stands on a root stamps it, with the same moment.
    ensures standing { StandingStamps }
    // An archive time-stamp with a token that stamps a root has its moment, after which a renewal must come.
    ensures time { StampsHaveTime }
{}

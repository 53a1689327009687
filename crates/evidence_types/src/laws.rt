//! What holds of the definitions of evidence records: there is no code to run.

ghost use Rattle.evidence_types.specs.Laws.{
  EvidenceTableIsClear,
  EvidenceRecordsAreEncodings,
  EvidenceRecordsHaveNoFault,
  EvidenceRecordsAreUnique,
};
ghost use Rattle.evidence_types.specs.EvidenceRows.{EvidenceRows};
ghost use Rattle.evidence_types.specs.EvidenceFaultRows.{EvidenceFaultRows};

/// Each part of the table that may be absent can be distinguished from what may follow it.
pub fn evidence_table_is_clear()
    // The form of an evidence record is clear.
    ensures { EvidenceTableIsClear }
{}

/// The octets that encode a good evidence record are an encoding by the grammar table, have no fault, and encode no
/// other evidence record.
pub fn evidence_records_are_encodings()
    // The octets of a good evidence record are an encoding by the grammar table.
    ensures encodings { EvidenceRecordsAreEncodings }
    // They have no fault, not even one that shows before their outer lengths are met.
    ensures no_faults { EvidenceRecordsHaveNoFault }
    // Octets encode at most one evidence record.
    ensures unique { EvidenceRecordsAreUnique }
{}

/// The worked rows: given octets, the values that they encode, and their faults.
pub fn evidence_rows_hold()
    // Octets and the evidence record that they encode, or that they encode none.
    ensures records { EvidenceRows }
    // Octets and a fault that they have.
    ensures faults { EvidenceFaultRows }
{}

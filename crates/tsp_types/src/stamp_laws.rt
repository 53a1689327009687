//! What holds of the definitions of time-stamps and responses: there is no code to run.

ghost use Rattle.tsp_types.specs.StampLaws.{
  TstInfosAreEncodings,
  TstInfosHaveNoFault,
  TstInfosAreUnique,
  ResponsesAreEncodings,
  ResponsesHaveNoFault,
  ResponsesAreUnique,
};
ghost use Rattle.tsp_types.specs.TstRows.{TstRows};
ghost use Rattle.tsp_types.specs.ResponseRows.{ResponseRows, FailRows};

/// The octets that encode a good TSTInfo are an encoding by the grammar table, have no fault, and encode no other
/// TSTInfo.
pub fn tst_infos_are_encodings()
    // The octets of a good TSTInfo are an encoding by the grammar table.
    ensures encodings { TstInfosAreEncodings }
    // They have no fault, not even one that shows before their outer lengths are met.
    ensures no_faults { TstInfosHaveNoFault }
    // Octets encode at most one TSTInfo.
    ensures unique { TstInfosAreUnique }
{}

/// The octets that encode a good response are an encoding by the grammar table, have no fault, and encode no other
/// response.
pub fn responses_are_encodings()
    // The octets of a good response are an encoding by the grammar table.
    ensures encodings { ResponsesAreEncodings }
    // They have no fault, not even one that shows before their outer lengths are met.
    ensures no_faults { ResponsesHaveNoFault }
    // Octets encode at most one response.
    ensures unique { ResponsesAreUnique }
{}

/// The worked rows: given octets, and the values that they encode.
pub fn stamp_rows_hold()
    // Octets and the TSTInfo that they encode, or that they encode none.
    ensures stamps { TstRows }
    // Octets and the response that they encode, or that they encode none.
    ensures responses { ResponseRows }
    // Which bit of failInfo is which: bit 0 is the high bit of the first octet after the count.
    ensures fail_bits { FailRows }
{}

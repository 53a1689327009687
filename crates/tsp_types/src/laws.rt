//! What holds of the definitions of requests: there is no code to run.

ghost use Rattle.tsp_types.specs.Laws.{RequestsAreEncodings, RequestsHaveNoFault, RequestsAreUnique};

/// The octets that encode a good request are an encoding by the grammar table, have no fault, and encode no other
/// request.
pub fn requests_are_encodings()
    // The octets of a good request are an encoding by the grammar table.
    ensures encodings { RequestsAreEncodings }
    // They have no fault, not even one that shows before their outer lengths are met.
    ensures no_faults { RequestsHaveNoFault }
    // Octets encode at most one request.
    ensures unique { RequestsAreUnique }
{}

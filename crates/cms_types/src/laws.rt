//! What holds of the definitions of a ContentInfo, for every list of octets: statements that the check proves.
ghost use Rattle.cms_types.specs.Laws.{ContentInfosAreEncodings, ContentInfosHaveNoFault, ContentInfosAreUnique};

/// The octets that encode a good ContentInfo, a SignedData or another type, are an encoding by the grammar and have no
/// fault of it, and octets encode at most one ContentInfo.
pub fn content_infos_are_encodings()
    // The octets of a good ContentInfo, of a SignedData or of another type, are an encoding by the grammar table.
    ensures encodings { ContentInfosAreEncodings }
    // They have no fault, not even one that shows before their outer lengths are met.
    ensures no_faults { ContentInfosHaveNoFault }
    // Octets encode at most one ContentInfo.
    ensures unique { ContentInfosAreUnique }
{}

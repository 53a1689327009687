//! What holds of the definitions of signing certificates: there is no code to run.

ghost use Rattle.ess_types.specs.Laws.{
  SigningCertificatesAreEncodings,
  SigningCertificatesHaveNoFault,
  SigningCertificatesAreUnique,
  SecondVersionsAreEncodings,
  SecondVersionsHaveNoFault,
  SecondVersionsAreUnique,
};
ghost use Rattle.ess_types.specs.SigningRows.{SigningRows};

/// The octets that encode a good signing certificate of version 1 are an encoding by the grammar table, have no fault,
/// and encode no other signing certificate.
pub fn signing_certificates_are_encodings()
    // The octets of a good signing certificate of version 1 are an encoding by the grammar table.
    ensures encodings { SigningCertificatesAreEncodings }
    // They have no fault, not even one that shows before their outer lengths are met.
    ensures no_faults { SigningCertificatesHaveNoFault }
    // Octets encode at most one signing certificate of version 1.
    ensures unique { SigningCertificatesAreUnique }
{}

/// The same for version 2.
pub fn signing_certificates_v2_are_encodings()
    // The octets of a good signing certificate of version 2 are an encoding by the grammar table.
    ensures encodings { SecondVersionsAreEncodings }
    // They have no fault, not even one that shows before their outer lengths are met.
    ensures no_faults { SecondVersionsHaveNoFault }
    // Octets encode at most one signing certificate of version 2.
    ensures unique { SecondVersionsAreUnique }
{}

/// The worked rows: given octets, and the values that they encode.
pub fn signing_rows_hold()
    ensures signing_certificates { SigningRows }
{}

//! What holds of the definitions: there is no code to run.

ghost use Rattle.cert_types.specs.Laws.{CertificatesAreEncodings, CertificatesHaveNoFault, CertificatesAreUnique};

/// The octets that encode a good certificate are an encoding by the grammar table, have no fault, and encode no other
/// certificate.
pub fn certificates_are_encodings()
    // The octets of a good certificate are an encoding by the grammar table.
    ensures encodings { CertificatesAreEncodings }
    // They have no fault, not even one that shows before their outer lengths are met.
    ensures no_faults { CertificatesHaveNoFault }
    // Octets encode at most one certificate.
    ensures unique { CertificatesAreUnique }
{}

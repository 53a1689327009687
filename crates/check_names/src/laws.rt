//! What holds of the definitions of naming: there is no code to run.

ghost use Rattle.check_names.specs.NamingRows.{NamingRows, IssuerRows, MatchingRows};

/// The worked rows: attributes, issuers with serial numbers, and identifiers of signers that name a certificate, and
/// some that do not.
pub fn rows_hold()
    // Signing-certificate attributes of either version, of both and of none; other hashes, and one that occurs twice.
    ensures naming { NamingRows }
    // Issuers with serial numbers that are those of the certificate, and others.
    ensures issuers { IssuerRows }
    // Identifiers of signers that match the certificate, and others.
    ensures matching { MatchingRows }
{}

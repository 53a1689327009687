//! Worked rows: there is no code to run.

ghost use Rattle.der_grammar_rows.specs.SizeRows.{SizeRows};
ghost use Rattle.der_grammar_rows.specs.FaultRows.{HeaderFaultRows, PartFaultRows, ContentsFaultRows};
ghost use Rattle.der_grammar_rows.specs.PartRows.{MissingPartRows, InnerPartRows, SecondPartRows, LastPartRows};
ghost use Rattle.der_grammar_rows.specs.EncodingRows.{StampEncodingRows, CertificateEncodingRows, SignedEncodingRows};
ghost use Rattle.der_grammar_rows.specs.NoEncodingRows.{NoEncodingRows};
ghost use Rattle.der_grammar_rows.specs.OpenRows.{OpenRows};
ghost use Rattle.der_grammar_rows.specs.NoFaultRows.{NoFaultRows};

/// Octets that encode a type of the profile, octets that don't, and the faults of octets, of whole inputs and of
/// beginnings.
pub fn profile_rows_hold()
    // How many octets the examples have.
    ensures sizes { SizeRows }
    // Faults of identifiers and lengths.
    ensures header_faults { HeaderFaultRows }
    // Parts in a place where they may not be, or not as they may be.
    ensures part_faults { PartFaultRows }
    // Contents that are not of their type, or have a value that is not allowed.
    ensures contents_faults { ContentsFaultRows }
    // For each part that must be present, the fault if it is missing.
    ensures missing_parts { MissingPartRows }
    // For each part, the fault if its contents are not of its form.
    ensures inner_parts { InnerPartRows }
    // For each part that may be absent, the fault if it comes twice.
    ensures second_parts { SecondPartRows }
    // The fault if something follows the last part.
    ensures last_parts { LastPartRows }
    // Encodings of time-stamps.
    ensures stamp_encodings { StampEncodingRows }
    // Encodings of certificates.
    ensures certificate_encodings { CertificateEncodingRows }
    // Encodings of signed files and tokens.
    ensures signed_encodings { SignedEncodingRows }
    // For each type, inputs that are nearly encodings.
    ensures no_encodings { NoEncodingRows }
    // Faults that hold of beginnings of inputs.
    ensures openly { OpenRows }
    // Faults that octets do not have.
    ensures no_faults { NoFaultRows }
{}

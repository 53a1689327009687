//! What holds of the definitions: there is no code to run.

ghost use Rattle.ecdsa_signatures.specs.Rows.{SignatureRows};

/// The worked rows: signatures on two small curves.
pub fn signature_rows_hold()
    ensures { SignatureRows }
{}

//! What holds of the definitions: there is no code to run.

ghost use Rattle.der_core.specs.Laws.{EncodingsHaveNone, InputsAreJudged};
ghost use Rattle.der_core.specs.HexRows.{HexRows};
ghost use Rattle.der_core.specs.ContentsRows.{ElementRows, ContentsRows, TimeRows};

/// An encoding has no fault.
pub fn encodings_have_no_fault()
    // An encoding of a clear form has no fault, not even one that shows before its outer lengths are met.
    ensures { EncodingsHaveNone }
{}

/// Each input is an encoding or has a fault.
pub fn inputs_are_judged()
    // If a form is clear and need not have a member, each input of octets is an encoding of it or has a fault.
    ensures { InputsAreJudged }
{}

/// The worked rows.
pub fn rows_hold()
    // Texts in hexadecimal and their octets.
    ensures hexadecimal { HexRows }
    // Identifiers, lengths and byte order.
    ensures elements { ElementRows }
    // Contents of BOOLEAN, INTEGER, BIT STRING and OBJECT IDENTIFIER, and octets that are none.
    ensures contents { ContentsRows }
    // Contents of UTCTime and GeneralizedTime, and texts that are none.
    ensures times { TimeRows }
{}

//! What holds of the definitions, for every content: there is no code to run.
ghost use Rattle.std.specs.Prelude.{List, ℕ};
ghost use Rattle.check_fit.specs.FittingRows.{FittingRows, UnfitRows, AbcRows};

/// The worked rows of signers that fit a content, and of signers that don't.
pub fn rows_hold()
    // Signers that fit each content.
    ensures fitting { (content : List ℕ) → FittingRows content }
    // Signers that do not fit a content, each with the rule that it fails first.
    ensures unfit { (content digest : List ℕ) → UnfitRows content digest }
    // Signers of the content abc, by SHA-256 and SHA-512/256; one of them does not fit the empty content.
    ensures abc { AbcRows }
{}

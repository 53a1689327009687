//! What holds of the definitions of comparing: there is no code to run.

ghost use Rattle.std.specs.Prelude.{List, ℕ};
ghost use Rattle.cms_compare.specs.Rows.{ComparingRows};
ghost use Rattle.cms_compare.specs.Laws.{SignaturesBindContents, FilesAreCompared, NeverBoth, OneAnswer, OneRefusal};

/// Signers that fit their contents, name one digest algorithm and sign the same octets have equal contents, or two
/// contents with one digest. Two files are compared or refused, never both, with one answer, or one refusal up to the
/// fault of form.
pub fn comparisons_are_judged()
    // Signers that fit and sign alike have equal contents, or two contents with one digest.
    ensures binding { SignaturesBindContents }
    // Two files of octets are compared or refused.
    ensures judged { FilesAreCompared }
    // No two files are both compared and refused.
    ensures never_both { NeverBoth }
    // Two files have at most one answer.
    ensures one_answer { OneAnswer }
    // Two files have at most one refusal, whichever fault of form it names.
    ensures one_refusal { OneRefusal }
{}

/// The worked rows: signers that sign alike and that do not, and what a SignedData is compared by.
pub fn rows_hold()
    ensures { (content : List ℕ) → ComparingRows content }
{}

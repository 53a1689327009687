//! What holds of the algorithms and of digests, for every message: there is no code to run.
ghost use Rattle.std.specs.Prelude.{◌≡◌, ◌≤◌, ◌↔◌, true, List, ℕ, Some, length};
ghost use Rattle.der_core.specs.Contents.{is_oid};
ghost use Rattle.der_core.specs.Values.{AlgorithmValue};
ghost use Rattle.digests.specs.declared.algorithm.Alg.{Alg};
ghost use Rattle.digests.specs.Algorithms.{Names, contents_of, length_of};
ghost use Rattle.digests.specs.Named.{alg_named, is_alg};
ghost use Rattle.digests.specs.Messages.{digest_of};
ghost use Rattle.digests.specs.DigestRows.{NoOctetRows, AbcRows, TwoBlockRows};

/// `alg_named` gives an algorithm exactly when an AlgorithmIdentifier names it, and `is_alg` is true exactly if two
/// algorithms are the same.
pub fn algorithms_are_named()
    // `alg_named` gives an algorithm exactly if the object identifier and parameters name it.
    ensures named { (a : AlgorithmValue) (alg : Alg) → (alg_named a ≡ Some alg) ↔ Names a.oid a.parameters alg }
    // `is_alg` is true exactly if two algorithms are the same.
    ensures same { (a b : Alg) → (is_alg a b ≡ true) ↔ (a ≡ b) }
{}

/// The object identifier of each algorithm has the contents octets of an OBJECT IDENTIFIER (X.690 8.19), at most 9, and
/// no other algorithm has it.
pub fn oids_are_good()
    // Each object identifier is contents of an OBJECT IDENTIFIER.
    ensures formed { (alg : Alg) → is_oid (contents_of alg) ≡ true }
    // It has at most 9 octets.
    ensures short { (alg : Alg) → length (contents_of alg) ≤ 9 }
    // No two algorithms have the same one.
    ensures distinct { (a b : Alg) → contents_of a ≡ contents_of b → a ≡ b }
{}

/// The digest of a message has as many octets as a digest by its algorithm has (FIPS 180-4, figure 1), at most 64.
pub fn digests_have_their_length()
    // A digest has as many octets as the table gives for its algorithm.
    ensures length { (alg : Alg) (message : List ℕ) → length (digest_of alg message) ≡ length_of alg }
    // These are at most 64.
    ensures most { (alg : Alg) → length_of alg ≤ 64 }
{}

/// The worked rows: NIST's examples of digests.
pub fn rows_hold()
    // The digests of the empty message.
    ensures no_octets { NoOctetRows }
    // The digests of abc, a message of one block.
    ensures abc { AbcRows }
    // The digests of messages of two blocks.
    ensures two_blocks { TwoBlockRows }
{}

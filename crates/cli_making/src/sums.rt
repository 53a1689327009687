//! The hash tree over the digests that a text of sums states.
ghost use Rattle.std.specs.Prelude.{◌≡◌, ◌<◌, ◌^◌, ◌⊎◌, ℕ, List, Ok, IfErr, IfOk, length, map};
ghost use Rattle.evidence_trees.specs.HashTrees.{HashTree};
ghost use Rattle.evidence_sums.specs.SumLines.{SumValue};
ghost use Rattle.evidence_sums.specs.Sums.{sums_of};
ghost use Rattle.cli_making.specs.Sums.{AreNamed, AreStated, IsTreeOver, LacksMemory, RefusesSums, StatesNone};

use crate::names::test_names;
use cli_failures::Failure;
use digests::{Alg, Digest};
use evidence_sums::Sums;
use evidence_trees::Tree;
use std::alloc::{AllocError, Global};

/// What a text of sums by this algorithm states, whatever the names.
#[tactic(auto, using(crate::proofs::Stated::states_none))]
fn stated_in<'a, 't>(alloc: Global, alg: Alg, text: &'t [u8]) -> Result<Sums<'t>, Failure<'a>>
    ensures found { IfOk result (λ sums. sums_of alg text.now ≡ Ok sums) }
    ensures refused { IfErr result (λ f. LacksMemory alg text.now f ⊎ StatesNone alg text.now f) }
{
    match Sums::read(alloc, alg, text) {
        Ok(sums) => Ok(sums),
        Err(fault) => Err(Failure::from(fault)),
    }
}

/// What a text of sums by this algorithm states, with names that are text.
///
/// Errors: U1, U2, U5 and U6; memory is refused.
pub fn sums_in<'a, 't>(alloc: Global, alg: Alg, text: &'t [u8]) -> Result<Sums<'t>, Failure<'a>>
    // The text states them.
    ensures found { IfOk result (λ sums. sums_of alg text.now ≡ Ok sums) }
    // Their names are text.
    ensures named { IfOk result AreNamed }
    // Why they are refused.
    ensures refused { IfErr result (RefusesSums alg text.now) }
{
    let sums = stated_in(alloc, alg, text)?;
    test_names(alloc, &sums)?;
    Ok(sums)
}

/// The digests of lines, in their order.
fn digests_of(alloc: Global, sums: &Sums) -> Result<Vec<Digest>, AllocError>
    ensures { IfOk result (λ digests. digests.items ≡ map (λ s. s.digest) sums.now) }
{
    let mut digests = Vec::new(alloc);
    let mut left = sums.again();
    while let Some((sum, others)) = left.next() {
        digests.push(sum.digest(alloc)?)?;
        left = others;
    }
    Ok(digests)
}

/// The tree over the digests of the lines of a text. It takes memory for the digests, and what `Tree::of` takes.
pub fn tree_over(alloc: Global, alg: Alg, sums: &Sums) -> Result<Tree, AllocError>
    // A text states them.
    requires { (text : List ℕ) × (sums_of alg text ≡ Ok sums.now) }
    ensures { IfOk result (IsTreeOver alg sums.now) }
{
    let digests = digests_of(alloc, sums)?;
    Tree::of(alloc, alg, digests.as_slice())
}

/// The root of the tree over the digests that a text of sums by this algorithm states.
///
/// Errors: U1, U2, U5 and U6; memory is refused.
pub fn root_in<'a>(alloc: Global, alg: Alg, text: &[u8]) -> Result<Digest, Failure<'a>>
    ensures found { IfOk result (λ root. (sums : List SumValue) × (tree : HashTree)
        × AreStated alg text.now sums tree root) }
    ensures refused { IfErr result (RefusesSums alg text.now) }
{
    let sums = sums_in(alloc, alg, text)?;
    let tree = tree_over(alloc, alg, &sums)?;
    Ok(tree.root())
}

//! What the renewals of all records stand on, and the hash tree over that.
ghost use Rattle.std.specs.Prelude.{◌≡◌, ◌≢◌, ◌⊎◌, [], IfErr, IfOk, ℕ, List};
ghost use Rattle.std.specs.Option.{option_copied};
ghost use Rattle.digests.specs.declared.algorithm.Alg.{Alg};
ghost use Rattle.digests.specs.declared.value.Digest.{Digest};
ghost use Rattle.cli_making.specs.Sums.{IsRootOf};
ghost use Rattle.cli_renewing.specs.Footings.{IsTreeOn};
ghost use Rattle.cli_renewing.specs.Steps.{AreOfFirst};
ghost use Rattle.cli_rehashing.specs.Footings.{AreLineFootings};
ghost use Rattle.cli_rehashing.specs.Lines.{AreLines};
ghost use Rattle.cli_rehashing.specs.Unrehashed.{StopsAt};

use crate::folder::RecordFolder;
use crate::footing::footing_of;
use crate::keeping::KeepsBelow;
use cli_failures::Failure;
use cli_renewing::{Footing, tree_on};
use evidence_sums::RecordSums;
use evidence_trees::Tree;
use std::alloc::Global;

/// What the renewals of these records stand on, with this token if there is one already.
///
/// Errors: of the first record for which there is one, that its file can't be read or doesn't hold one, or U3 or U11;
/// memory is refused.
pub fn footings_of<'a, K: KeepsBelow>(
    alloc: Global,
    keeps: &K,
    folder: &RecordFolder,
    sums: &RecordSums,
    token: Option<&[u8]>,
) -> Result<Vec<Footing>, Failure<'a>>
    requires { (alg : Alg) × (text : List ℕ) × AreLines alg text sums.now }
    ensures found { IfOk result (λ footings.
        AreLineFootings K.ways (option_copied token.entry) folder.now sums.now footings.items) }
    // There are some, by one algorithm.
    ensures by { IfOk result (λ footings. AreOfFirst footings.items) }
    ensures some { IfOk result (λ footings. footings.items ≢ []) }
    ensures refused { IfErr result (λ f. (f ≡ Failure.Memory)
        ⊎ StopsAt K.ways (option_copied token.entry) folder.now sums.now f) }
{
    let mut footings = Vec::new(alloc);
    let mut left = sums.again();
    while let Some((sum, others)) = left.next() {
        let footing = footing_of(alloc, keeps, folder, &sum, token)?;
        footings.push(footing)?;
        left = others;
    }
    Ok(footings)
}

/// The tree over the leaves of records, of which there are some.
///
/// Errors: memory is refused.
pub fn tree_of<'a>(alloc: Global, footings: &[Footing]) -> Result<Tree, Failure<'a>>
    requires by { AreOfFirst footings.now }
    requires some { footings.now ≢ [] }
    ensures found { IfOk result (λ tree. (root : Digest) → IsRootOf tree root
        → IsTreeOn footings.now tree root) }
    ensures refused { IfErr result (λ f. f ≡ Failure.Memory) }
{
    tree_on(alloc, footings)
}

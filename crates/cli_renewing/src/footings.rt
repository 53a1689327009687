//! What the renewals of many records stand on.
ghost use Rattle.std.specs.Prelude.{◌≡◌, ◌⊎◌, ◌↔◌, IfErr, IfOk, IsTrue};
ghost use Rattle.std.specs.Option.{option_copied};
ghost use Rattle.cli_renewing.specs.Footings.{AreFootings};
ghost use Rattle.cli_renewing.specs.Steps.{AreOfFirst, IsOfFirst};
ghost use Rattle.cli_renewing.specs.Unrenewed.{StopsAt};

use crate::footing::{Footing, footing_at};
use crate::keeping::Keeps;
use cli_failures::Failure;
use digests::Alg;
use std::alloc::Global;

/// Whether an algorithm is that of the first leaf, if there is one.
fn is_of_first(footings: &[Footing], alg: Alg) -> bool
    ensures { IsTrue result ↔ IsOfFirst footings.now alg }
{
    match footings.first() {
        Some(first) => first.leaf.alg() == alg,
        None => true,
    }
}

/// What the renewals of the records in the files of these paths stand on, with this token if there is one already.
///
/// Errors: of the first file for which there is one, that it can't be read or doesn't hold a record, U3, or U4; memory
/// is refused.
pub fn footings_at<'a, K: Keeps>(
    alloc: Global,
    keeps: &K,
    paths: &[&str],
    token: Option<&[u8]>,
) -> Result<Vec<Footing>, Failure<'a>>
    ensures found { IfOk result (λ footings.
        AreFootings K.ways (option_copied token.entry) paths.now footings.items) }
    ensures by { IfOk result (λ footings. AreOfFirst footings.items) }
    ensures refused { IfErr result (λ f. (f ≡ Failure.Memory)
        ⊎ StopsAt K.ways (option_copied token.entry) paths.now f) }
{
    let mut footings = Vec::new(alloc);
    for path in paths {
        let footing = footing_at(alloc, keeps, path, token)?;
        if !is_of_first(footings.as_slice(), footing.leaf.alg()) {
            return Err(Failure::Mixed);
        }
        footings.push(footing)?;
    }
    Ok(footings)
}

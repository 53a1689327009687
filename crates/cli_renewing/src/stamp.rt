//! The stamp of the tree on what the renewals of records stand on.
ghost use Rattle.std.specs.Prelude.{◌≡◌, IfErr, IfOk, OnOk};
ghost use Rattle.cli_making.specs.Stamps.{IsStamp};
ghost use Rattle.cli_renewing.specs.Footings.{ComesAfter};
ghost use Rattle.cli_renewing.specs.Runs.{IsNotLater, IsTooEarly};

use crate::footing::Footing;
use cli_failures::Failure;
use cli_making::{Stamp, stamp_of};
use der_time::Moment;
use evidence_making::StampFault;
use evidence_trees::Tree;

/// Tests whether a moment is later than those of the last time-stamps.
///
/// Errors: U9.
fn test_order<'a>(footings: &[Footing], moment: Moment) -> Result<(), Failure<'a>>
    // After a success it is later than all of them.
    ensures later { OnOk result (ComesAfter moment footings.now) }
    // After a failure it is not later than one.
    ensures refused { IfErr result (IsTooEarly moment footings.now) }
{
    for footing in footings {
        if moment <= footing.after {
            return Err(Failure::Unstamping(StampFault::Order));
        }
    }
    Ok(())
}

/// The stamp of the tree on these by a token over its root, which is later than their last time-stamps.
///
/// Errors: U7, U8; U9.
pub fn later_stamp<'t, 'a>(
    tree: &'t Tree,
    footings: &[Footing],
    token: &'t [u8],
) -> Result<Stamp<'t>, Failure<'a>>
    // It has this tree and this token.
    ensures has { IfOk result (λ s. (s.tree.now ≡ tree.now) × (s.token.now ≡ token.now)) }
    // The token stamps the root of the tree with this moment.
    ensures stamps { IfOk result IsStamp }
    // It is later than all of them.
    ensures later { IfOk result (λ s. ComesAfter s.moment footings.now) }
    // The first reason is told.
    ensures refused { IfErr result (IsNotLater tree.now footings.now token.now) }
{
    let stamp = stamp_of(tree, token)?;
    let moment = stamp.moment;
    test_order(footings, moment)?;
    Ok(Stamp {
        tree,
        token,
        moment,
    })
}

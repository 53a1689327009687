//! The renewal of one record.
ghost use Rattle.std.specs.Prelude.{◌≡◌, ◌≢◌, ◌⊎◌, ◌<◌, [], None, IfErr, IfSome, OnErr, OnOk, vec_items};
ghost use Rattle.cli_making.specs.Adding.{Adds};
ghost use Rattle.cli_making.specs.Stamps.{IsStamp};
ghost use Rattle.cli_renewing.specs.Records.{IsPutAt, IsTested, IsUnputAt, IsUntestedAt};
ghost use Rattle.cli_renewing.specs.Renewing.{Becomes, IsNoLeaf, IsOutside, IsTooLong, LeadsUp, renewal};
ghost use Rattle.cli_renewing.specs.Steps.{IsStep};

use crate::footing::{Footing, standing_of};
use crate::keeping::Keeps;
use cli_failures::{Failure, files};
use cli_making::Stamp;
use evidence_making::{MakeFault as MakeRecordFault, RenewFault, renew_record};
use evidence_trees::LeafLists;
use std::alloc::Global;

/// Why one record isn't renewed, of which there was a footing.
#[derive(Clone, Copy)]
pub enum Unrenewed {
    /// It isn't what it was when the tree was made.
    Changed,
    /// U10: some contents would have more than 4,294,967,295 octets.
    TooLong,
    /// Memory is refused.
    OutOfMemory,
}

impl Unrenewed {
    /// Why a record isn't renewed that has no footing any more: what isn't a lack of memory is a change.
    pub fn of(failure: &Failure) -> Unrenewed
        ensures { ((result ≡ Unrenewed.OutOfMemory) × (failure.now ≡ Failure.Memory))
            ⊎ ((result ≡ Unrenewed.Changed) × (failure.now ≢ Failure.Memory)) }
    {
        match failure {
            Failure::Memory => Unrenewed::OutOfMemory,
            _ => Unrenewed::Changed,
        }
    }
}

/// The lists that lead from what a renewal stands on to the root of the tree, if it is a leaf, and the stamp is later.
/// It allocates nothing.
pub fn lists_of<'t>(by: &Stamp<'t>, footing: &Footing) -> Option<LeafLists<'t>>
    // Their values are the leaf and the neighbours on its way up.
    ensures up { IfSome result (LeadsUp by.now.tree.now footing.now.leaf) }
    // The stamp is later.
    ensures later { IfSome result (λ _. footing.now.after < by.now.moment) }
    // Returns `None` only if it isn't, or the tree has no such leaf.
    ensures none { result ≡ None → IsNoLeaf by.now.tree.now by.now.moment footing.now.leaf footing.now.after }
{
    if footing.after < by.moment {
        by.tree.lists_of(&footing.leaf)
    } else {
        None
    }
}

/// The octets of a record, renewed by the token, or `None` if it is renewed by it already.
///
/// Errors: the octets don't encode a record that stands on a leaf of the tree, and is earlier; U10; memory is refused.
fn renewed_of(alloc: Global, by: &Stamp, octets: &[u8]) -> Result<Option<Vec<u8>>, Unrenewed>
    requires { IsStamp by.now }
    ensures { IsStep vec_items (Becomes by.now.tree.now by.now.token.now by.now.moment octets.now)
        (IsTooLong by.now.tree.now by.now.token.now octets.now)
        (IsOutside by.now.tree.now by.now.token.now by.now.moment octets.now) result }
{
    let standing = match standing_of(alloc, octets, Some(by.token)) {
        Ok(standing) => standing,
        Err(failure) => return Err(Unrenewed::of(&failure)),
    };
    let last = standing.last;
    let footing = Footing {
        leaf: last.leaf,
        after: last.moment,
    };
    let Some(values) = lists_of(by, &footing) else {
        return Err(Unrenewed::Changed);
    };
    if standing.done {
        return Ok(None);
    }
    match renew_record(alloc, octets, last.alg, &values, by.token) {
        Ok(renewed) => Ok(Some(renewed)),
        Err(RenewFault::TooLong) => Err(Unrenewed::TooLong),
        Err(RenewFault::OutOfMemory) => Err(Unrenewed::OutOfMemory),
        Err(RenewFault::Malformed(_)) => Err(Unrenewed::Changed),
    }
}

/// Tests whether the record in the file of this path can be renewed by the token, and put into its place.
///
/// Errors: the file can't be read or replaced; its record isn't what it was when the tree was made; U10; memory is
/// refused.
pub fn test_record<'a, K: Keeps>(
    alloc: Global,
    by: &Stamp,
    keeps: &K,
    path: &str,
) -> Result<(), Failure<'a>>
    requires { IsStamp by.now }
    ensures tested { OnOk result (IsTested K.ways (renewal by.now.tree.now by.now.token.now by.now.moment)
        path.entry) }
    ensures fails { IfErr result (IsUntestedAt K.ways (renewal by.now.tree.now by.now.token.now by.now.moment)
        path.entry) }
{
    keeps.test_file(path)?;
    let octets = keeps.read_file(path)?;
    match renewed_of(alloc, by, octets.as_slice()) {
        Ok(_) => Ok(()),
        Err(Unrenewed::Changed) => Err(files::changed(alloc, path)),
        Err(Unrenewed::TooLong) => Err(Failure::Unmade(MakeRecordFault::TooLong)),
        Err(Unrenewed::OutOfMemory) => Err(Failure::Memory),
    }
}

/// Renews the record in the file of this path by the token, unless it is renewed by it already.
///
/// Errors: the file can't be read or replaced; its record isn't what it was when the tree was made; memory is refused.
/// Then no file was put.
pub fn put_record<'a, K: Keeps>(
    alloc: Global,
    by: &Stamp,
    keeps: &mut K,
    path: &str,
) -> Result<(), Failure<'a>>
    requires { IsStamp by.now }
    ensures put { OnOk result (IsPutAt K.ways (K.put keeps.old) (K.put keeps.new)
        (renewal by.now.tree.now by.now.token.now by.now.moment) path.entry) }
    ensures fails { IfErr result (IsUnputAt K.ways (renewal by.now.tree.now by.now.token.now by.now.moment)
        path.entry) }
    ensures none { OnErr result (Adds (K.put keeps.old) (K.put keeps.new) []) }
{
    let octets = keeps.read_file(path)?;
    match renewed_of(alloc, by, octets.as_slice()) {
        Ok(Some(renewed)) => keeps.put_file(path, renewed.as_slice()),
        Ok(None) => Ok(()),
        Err(Unrenewed::Changed) => Err(files::changed(alloc, path)),
        Err(Unrenewed::TooLong) => Err(files::changed(alloc, path)),
        Err(Unrenewed::OutOfMemory) => Err(Failure::Memory),
    }
}

//! `evidence renew` with a request: the request for a stamp of the root of the tree over the last time-stamps of
//! records (RFC 4998 5.2).
ghost use Rattle.std.specs.Prelude.{◌≡◌, ◌⊎◌, None, [], IfErr, IfOk, OnOk, codes};
ghost use Rattle.cli_failures.specs.Causes.{Names};
ghost use Rattle.cli_renewing.specs.Renewing.{IsApart, IsRenewalRequest, IsRenewalRequestWritten};
ghost use Rattle.cli_renewing.specs.Unrenewed.{HaveNoTree, MakesNoRenewalRequest};

use crate::footings::footings_at;
use crate::keeping::Keeps;
use crate::tree::tree_on;
use cli_failures::request::request_of;
use cli_failures::{Failure, files};
use cli_making::System;
use cli_tasks::RenewalRequestWords;
use std::alloc::Global;
use std::rt::Files;

/// Makes the request for a stamp of the root of the tree over the last time-stamps of the evidence records in these
/// files, and then the file that it goes into, which is refused if it is the one of a record.
///
/// Errors: that file is one of a record, or can't be written; a record's can't be read, or doesn't hold one; none is
/// named; U3 and U4; memory is refused.
#[inline(never)]
pub fn request_renewal<'a, R: Files + AllocGlobal>(
    rt: &R,
    words: &RenewalRequestWords<'a>,
) -> Result<Vec<u8>, Failure<'a>>
    // Why no request was made.
    ensures failed { IfErr result (MakesNoRenewalRequest R.File.remaining R.File.contents words.now) }
    // Nothing is printed.
    ensures quiet { IfOk result (λ text. text.items ≡ []) }
    // A file that was opened took the octets of the request, if it is known what such a file holds.
    ensures made { OnOk result (IsRenewalRequestWritten R.File.remaining R.File.contents words.now) }
    // The file that was written is not that of a record, by their paths.
    ensures apart { OnOk result (IsApart words.now) }
{
    test_apart(rt, words)?;
    let octets = renewal_request(rt.alloc(), &System::new(rt), words.records.as_slice())?;
    files::write_whole(rt, words.out, octets.as_slice())?;
    Ok(Vec::new(rt.alloc()))
}

/// Refuses to put the request into the file of a record.
fn test_apart<'a, R: Files + AllocGlobal>(
    rt: &R,
    words: &RenewalRequestWords<'a>,
) -> Result<(), Failure<'a>>
    ensures apart { OnOk result (IsApart words.now) }
    ensures refused { IfErr result (λ f. (f ≡ Failure.Memory) ⊎ Names (codes "request") f) }
{
    for path in &words.records {
        files::apart(rt, "request", words.out, path)?;
    }
    Ok(())
}

/// The octets of the request for a stamp of the root of the tree over the last time-stamps of the records in these
/// files.
///
/// Errors: a file can't be read, or doesn't hold a record; none is named; U3 and U4; memory is refused.
pub fn renewal_request<'a, K: Keeps>(
    alloc: Global,
    keeps: &K,
    paths: &[&str],
) -> Result<Vec<u8>, Failure<'a>>
    // They encode the request for a stamp of that root, under no policy, without a nonce and without a certificate.
    ensures made { IfOk result (λ octets. IsRenewalRequest K.ways paths.now octets.items) }
    // The first reason is told.
    ensures refused { IfErr result (HaveNoTree K.ways None paths.now) }
{
    let footings = footings_at(alloc, keeps, paths, None)?;
    let tree = tree_on(alloc, footings.as_slice())?;
    let root = tree.root();
    // So the request is short.
    let _octets = root.bytes();
    request_of(alloc, &root, None, None, false)
}

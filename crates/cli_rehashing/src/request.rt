//! `evidence rehash` with a request: the request for a stamp of the root of the tree over the leaves of all records
//! (RFC 4998 5.2).
ghost use Rattle.std.specs.Prelude.{◌≡◌, ◌⊎◌, ℕ, List, None, [], IfErr, IfOk, OnOk, codes};
ghost use Rattle.digests.specs.declared.algorithm.Alg.{Alg};
ghost use Rattle.cli_failures.specs.Causes.{Names};
ghost use Rattle.cli_rehashing.specs.Footings.{AreLineFootings};
ghost use Rattle.cli_rehashing.specs.Lines.{AreLines, AreNamed};
ghost use Rattle.cli_renewing.specs.Keeping.{system_ways};
ghost use Rattle.cli_renewing.specs.Runs.{IsRequestOn};
ghost use Rattle.cli_rehashing.specs.Rehashing.{IsApart, IsRehashRequest, IsRehashRequestWritten, asked_folder};
ghost use Rattle.cli_rehashing.specs.Unrehashed.{HaveNoTree, MakesNoRehashRequest, StopsAt};

use crate::folder::RecordFolder;
use crate::footings::{footings_of, tree_of};
use crate::keeping::KeepsBelow;
use crate::reading::lines_in;
use cli_failures::request::request_of;
use cli_failures::{Failure, files};
use cli_making::{System, text_of};
use cli_tasks::RehashRequestWords;
use cli_values::alg_of;
use digests::Alg;
use evidence_sums::RecordSums;
use std::alloc::Global;
use std::rt::Files;

/// Makes the request for a stamp of the root of the tree over the leaves of the evidence records that a file of sums
/// names, and then the file that it goes into, which is refused if it is the one of the sums or of a record.
///
/// Errors: that file is one of these, or can't be written; no algorithm has the name; the sums can't be read; and those
/// of `rehash_request`.
#[inline(never)]
pub fn request_rehash<'a, R: Files + AllocGlobal>(
    rt: &R,
    words: &RehashRequestWords<'a>,
) -> Result<Vec<u8>, Failure<'a>>
    // Why no request was made.
    ensures failed { IfErr result (MakesNoRehashRequest R.File.remaining R.File.contents words.now) }
    // Nothing is printed.
    ensures quiet { IfOk result (λ text. text.items ≡ []) }
    // A file that was opened took the octets of the request, if it is known what such a file holds. By its path it is
    // neither that of the sums nor that of a record.
    ensures made { OnOk result (IsRehashRequestWritten R.File.remaining R.File.contents words.now) }
{
    files::apart(rt, "request", words.out, words.sums)?;
    let alg = alg_of(words.alg)?;
    let text = files::read_whole(rt, words.sums)?;
    let octets = octets_of(rt, words, alg, text.as_slice())?;
    files::write_whole(rt, words.out, octets.as_slice())?;
    Ok(Vec::new(rt.alloc()))
}

/// The octets of the request of these words, for a text of sums.
fn octets_of<'a, R: Files + AllocGlobal>(
    rt: &R,
    words: &RehashRequestWords<'a>,
    alg: Alg,
    text: &[u8],
) -> Result<Vec<u8>, Failure<'a>>
    ensures made { IfOk result (λ octets. (request : IsRehashRequest (system_ways R.File.remaining R.File.contents)
        (asked_folder words.now) alg text.now octets.items) × IsApart words.now request.sums) }
    ensures refused { IfErr result (λ f. Names (codes "request") f ⊎ ((f ≡ Failure.Memory)
        ⊎ HaveNoTree (system_ways R.File.remaining R.File.contents) None (asked_folder words.now) alg text.now f)) }
{
    let sums = lines_in(rt.alloc(), alg, text)?;
    test_apart(rt, words, &sums)?;
    let folder = RecordFolder {
        path: words.into,
        alone: words.alone,
    };
    request_on(rt.alloc(), &System::new(rt), &folder, &sums)
}

/// Refuses to put the request into the file of a record.
fn test_apart<'a, R: Files + AllocGlobal>(
    rt: &R,
    words: &RehashRequestWords<'a>,
    sums: &RecordSums,
) -> Result<(), Failure<'a>>
    requires { AreNamed sums.now }
    ensures apart { OnOk result (IsApart words.now sums.now) }
    ensures refused { IfErr result (λ f. (f ≡ Failure.Memory) ⊎ Names (codes "request") f) }
{
    let mut left = sums.again();
    while let Some((sum, others)) = left.next() {
        let name = sum.name(rt.alloc())?;
        let path = files::path_of(rt.alloc(), words.into, text_of(name.as_slice()))?;
        files::apart(rt, "request", words.out, path.as_str())?;
        left = others;
    }
    Ok(())
}

/// The octets of the request for a stamp of the root of the tree over the leaves of the records that a text of sums by
/// this algorithm names, which are below this folder.
///
/// Errors: U1, U2, U5 and U6; a record's file can't be read, or doesn't hold one; U3, U11; memory is refused.
pub fn rehash_request<'a, K: KeepsBelow>(
    alloc: Global,
    keeps: &K,
    folder: &RecordFolder,
    alg: Alg,
    text: &[u8],
) -> Result<Vec<u8>, Failure<'a>>
    // They encode the request for a stamp of that root, under no policy, without a nonce and without a certificate.
    ensures made { IfOk result (λ octets. IsRehashRequest K.ways folder.now alg text.now octets.items) }
    // The first reason is told.
    ensures refused { IfErr result (HaveNoTree K.ways None folder.now alg text.now) }
{
    let sums = lines_in(alloc, alg, text)?;
    request_on(alloc, keeps, folder, &sums)
}

/// The octets of the request for a stamp of the root of the tree over the leaves of these records.
fn request_on<'a, K: KeepsBelow>(
    alloc: Global,
    keeps: &K,
    folder: &RecordFolder,
    sums: &RecordSums,
) -> Result<Vec<u8>, Failure<'a>>
    requires { (alg : Alg) × (text : List ℕ) × AreLines alg text sums.now }
    ensures made { IfOk result (λ octets.
        IsRequestOn (λ footings. AreLineFootings K.ways None folder.now sums.now footings) octets.items) }
    ensures refused { IfErr result (λ f. (f ≡ Failure.Memory) ⊎ StopsAt K.ways None folder.now sums.now f) }
{
    let footings = footings_of(alloc, keeps, folder, sums, None)?;
    let tree = tree_of(alloc, footings.as_slice())?;
    let root = tree.root();
    // So the request is short.
    let _octets = root.bytes();
    request_of(alloc, &root, None, None, false)
}

//! The documents of which other programs made trees and records.
ghost use Rattle.std.specs.Prelude.{◌≡◌, IfOk, All};
ghost use Rattle.digests.specs.Digests.{alg_of};

use digests::{Alg, Digest, digest};
use std::alloc::{AllocError, Global};

/// The digests of the documents with these numbers: the text of each is `document`, a space, its number, and a line
/// feed.
pub(crate) fn documents(
    alloc: Global,
    alg: Alg,
    first: usize,
    end: usize,
) -> Result<Vec<Digest>, AllocError>
    ensures { IfOk result (λ v. All (λ d. alg_of d ≡ alg) v.items) }
{
    let mut documents = Vec::new(alloc);
    for number in first..end {
        let text = format!(in alloc; "document {number}\n")?;
        let document = digest(alg, text.as_str().as_bytes());
        documents.push(document)?;
    }
    Ok(documents)
}

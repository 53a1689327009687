//! `evidence request`: the request for a stamp of the root of a hash tree over many digests (RFC 4998 4.2).
ghost use Rattle.std.specs.Prelude.{◌≡◌, ◌≢◌, ◌⊎◌, [], IfErr, IfOk, OnOk};
ghost use Rattle.cli_making.specs.Requesting.{IsRootRequest, IsRootRequestWritten, MakesNoRootRequest};
ghost use Rattle.cli_making.specs.Requesting.{RefusesRootRequest};

use crate::sums::root_in;
use cli_failures::request::{policy_in, request_of};
use cli_failures::{Failure, files};
use cli_tasks::RootRequestWords;
use cli_values::{alg_of, nonce_contents, nonce_in, policy_contents};
use std::rt::Files;

/// Makes the request for a stamp of the root of the tree over the digests that a file states, and then the file that it
/// goes into, which is refused if it is the one of the digests.
///
/// The values of the words are judged before that file is opened.
///
/// Errors: a value isn't as it must be; a file can't be read or written; U1, U2, U5 and U6; memory is refused.
#[inline(never)]
pub fn make_root_request<'a, R: Files + AllocGlobal>(
    rt: &R,
    words: &RootRequestWords<'a>,
) -> Result<Vec<u8>, Failure<'a>>
    // Why no request was made.
    ensures failed { IfErr result (MakesNoRootRequest R.File.remaining words.now) }
    // Nothing is printed.
    ensures quiet { IfOk result (λ text. text.items ≡ []) }
    // A file that was opened took the octets of the request, if it is known what such a file holds.
    ensures made { OnOk result (IsRootRequestWritten R.File.remaining R.File.contents words.now) }
    // The file that was written is not that of the digests, by their paths.
    ensures apart { OnOk result (words.now.out.now ≢ words.now.sums.now) }
{
    files::apart(rt, "OUT", words.out, words.sums)?;
    let octets = octets_of(rt, words)?;
    files::write_whole(rt, words.out, octets.as_slice())?;
    Ok(Vec::new(rt.alloc()))
}

/// The octets of the request of these words.
fn octets_of<'a, R: Files + AllocGlobal>(
    rt: &R,
    words: &RootRequestWords<'a>,
) -> Result<Vec<u8>, Failure<'a>>
    ensures made { IfOk result (λ octets. IsRootRequest R.File.remaining words.now octets.items) }
    ensures refused { IfErr result (λ f. (f ≡ Failure.Memory) ⊎ RefusesRootRequest R.File.remaining words.now f) }
{
    let alg = alg_of(words.alg)?;
    let policy = policy_contents(rt.alloc(), words.policy)?;
    let nonce = nonce_contents(rt.alloc(), words.nonce)?;
    let text = files::read_whole(rt, words.sums)?;
    let root = root_in(rt.alloc(), alg, text.as_slice())?;
    request_of(
        rt.alloc(),
        &root,
        policy_in(&policy),
        nonce_in(&nonce),
        words.cert,
    )
}

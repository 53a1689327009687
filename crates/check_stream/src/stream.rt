ghost use Rattle.std.specs.Prelude.{◌≡◌, ◌⊎◌, ℕ, Bool, false, [], length, None, IfSome, IfOk, option_map};
ghost use Rattle.digests.specs.declared.algorithm.Alg.{Alg};
ghost use Rattle.digests.specs.Sets.{is_in};
ghost use Rattle.digests.specs.Selection.{FedWanted, set_of};
ghost use Rattle.trust_lists.specs.Asking.{Asked};
ghost use Rattle.check_verdict.specs.Asks.{AsksOnly};
ghost use Rattle.check_verdict.specs.Questions.{IsQuestion};
ghost use Rattle.check_verdict.specs.Checking.{CountsAsks};
ghost use Rattle.check_verdict.specs.TokenVerdicts.{terms_of};
ghost use Rattle.cms_stream.specs.Opening.{OpensStream, CountsPass};
ghost use Rattle.check_stream.specs.StreamVerdicts.{StreamChecks, StreamChecksAsking, StreamSaysYes, facts, given};
ghost use Rattle.check_stream.specs.StreamVerdicts.{StreamVerdictOrDevice, IsUnjudged, IsEarly, LacksDigest};
ghost use Rattle.check_stream.specs.StreamVerdicts.{StreamSuffices, judge};
ghost use Rattle.check_stream.specs.Promises.{Promised};
ghost use Rattle.check_stream.specs.JudgedKept.{IsEarlyIn, CountsAsksIn};
ghost use Rattle.check_stream.specs.DeviceVerdicts.{OfDevices};

use crate::content::{Chosen, Hashers};
use crate::judging::judge_pass;
use check_fit::{Policy, Refused};
use check_verdict::{Accepted, Checker};
use cms_stream::{Opened, Pass, StreamFault};
use devices::Source;
use digests::{Algs, Wanted};
use list_answers::Verifier;
use std::marker::Brand;
use trust_lists::Trust;

// One pass over a file: what it keeps, and the hashers of these algorithms, which took its content.
fn pass_over<'b, C: Chosen, F: Source>(
    passing: &mut Pass,
    file: &mut F,
    buffer: &'b mut [u8],
    algorithms: Algs,
) -> (Result<Option<Opened<'b>>, StreamFault>, Wanted)
    requires { algorithms ≡ C.chosen }
    ensures opens { F.tells file.old
        → OpensStream (FedWanted result.1) (length buffer.old) (F.rest file.old) result.0 }
    ensures end { F.tells file.old → IfOk result.0 (λ _. F.rest file.new ≡ []) }
    ensures set { set_of result.1 ≡ algorithms }
    ensures count { CountsPass result.0 (F.failures file.old) (F.failures file.new) }
{
    let mut hashers: Hashers<C> = Hashers::new(algorithms);
    let pass = passing.open_stream(file, buffer, &mut hashers);
    (pass, hashers.wanted())
}

/// The verdict of `check_stream`, with what serves for one file after another: the window, and what a check goes by.
/// What they keep of earlier files changes no verdict: the window is empty at the front of each file, and what a
/// `Checker` keeps is of its own list.
///
/// A content in the file is hashed by these algorithms only. `None` only if a signer needs its digest by another
/// algorithm: then nothing was judged, and a caller that can read the file again may do so with more algorithms. So the
/// choice of algorithms changes the time, and never the verdict: it may be a guess, such as `digestAlgorithms` of the
/// file (RFC 5652 5.1).
///
/// Errors: as `check_stream`.
pub fn check_stream_by<F: Source, S: Source, V: Verifier>(
    passing: &mut Pass,
    checker: &mut Checker,
    file: &mut F,
    content: &mut Option<S>,
    buffer: &mut [u8],
    verifier: &mut V,
    algorithms: Algs,
) -> Option<Result<Accepted, Refused>>
    // If there is a verdict, it is all that `check_stream` says of its own.
    ensures promised { IfSome result (Promised
        (judge V.Verifier checker.old.policy checker.old.trust verifier.old verifier.new)
        (given F.Source file.old file.new buffer.old) S.Source content.old content.new) }
    // The file is read to its end, unless the verdict is C1, X1 or X3.
    ensures end { F.tells file.old → IsEarlyIn result ⊎ (F.rest file.new ≡ []) }
    // No verdict: only if a signer needs a digest by another algorithm, of the content that is in the file.
    ensures none { result ≡ None → F.tells file.old → LacksDigest checker.old.policy (F.rest file.old) algorithms }
    // So there is always a verdict with all algorithms.
    ensures lacking { result ≡ None → (alg : Alg) × (is_in alg algorithms ≡ false) }
    // And then the content is not read, nothing is asked, and no device failed.
    ensures untouched { result ≡ None → (content.new ≡ content.old) × (verifier.new ≡ verifier.old)
        × (F.failures file.new ≡ F.failures file.old) }
    // What the verifier vouches for stays the same.
    ensures same { V.vouches verifier.new ≡ V.vouches verifier.old }
    // The verifier failed exactly if the verdict says so.
    ensures count { CountsAsksIn result (V.failures verifier.old) (V.failures verifier.new) }
    // What the check goes by stays the same.
    ensures stays { checker.new ≡ checker.old }
{
    let (pass, hashers) = pass_over::<Brand, F>(passing, file, buffer, algorithms);
    judge_pass(pass, hashers, content, checker, verifier)
}

/// The same with all algorithms, so there is always a verdict.
///
/// Errors: as `check_stream`.
pub fn check_stream_with<F: Source, S: Source, V: Verifier>(
    passing: &mut Pass,
    checker: &mut Checker,
    file: &mut F,
    content: &mut Option<S>,
    buffer: &mut [u8],
    verifier: &mut V,
) -> Result<Accepted, Refused>
    // It is all that `check_stream` says of its verdict.
    ensures promised { Promised (judge V.Verifier checker.old.policy checker.old.trust verifier.old verifier.new)
        (given F.Source file.old file.new buffer.old) S.Source content.old content.new result }
    // The file is read to its end, unless the verdict is C1, X1 or X3.
    ensures end { F.tells file.old → IsEarly result ⊎ (F.rest file.new ≡ []) }
    // What the verifier vouches for stays the same.
    ensures same { V.vouches verifier.new ≡ V.vouches verifier.old }
    // The verifier failed exactly if the verdict says so.
    ensures count { CountsAsks result (V.failures verifier.old) (V.failures verifier.new) }
    // What the check goes by stays the same.
    ensures stays { checker.new ≡ checker.old }
{
    // A policy may allow each algorithm.
    let every = Policy::with_sha1(true).allowed;
    match check_stream_by(passing, checker, file, content, buffer, verifier, every) {
        Some(verdict) => verdict,
        None => unreachable!(),
    }
}

/// Whether each signature of a file that comes from a source existed by a moment, and the moment: the verdict of
/// `check` of `check_verdict` for the same octets. The file is read once, to its end, and its content is hashed as it
/// passes. The buffer holds the whole elements `eContentType` and `signerInfos` (RFC 5652 5.1, 5.2); nothing else of
/// the file is kept. A content that is handed in is read after the file. Nothing is allocated.
///
/// Errors: X1 if a source fails; X3 as soon as headers state more for these two elements than the buffer has; C1 if
/// the file is malformed, with a fault of the octets, or one met before the ends of the elements around it; then C2 to
/// C5, in this order, and none of the content is read; X5 if the content has more than 2^40 octets, and X2 if the
/// verifier fails; otherwise the first signer, numbered from 1, that isn't good, with the first of S1 to S10 that it
/// fails, or, if it fails none of these, its token 1 with the first of K1 to K14 that this token fails.
pub fn check_stream<F: Source, S: Source, V: Verifier>(
    file: &mut F,
    content: &mut Option<S>,
    buffer: &mut [u8],
    trust: &Trust,
    policy: &Policy,
    verifier: &mut V,
) -> Result<Accepted, Refused>
    // For a file and a content that are known: yes with a moment exactly if the definition says so, unless a device
    // failed, the content is too long or there is too little room.
    ensures headline { F.tells file.old → IfSome content.old S.tells → (m : ℕ)
        → StreamSaysYes (terms_of policy.now trust.now (V.vouches verifier.old)) (F.rest file.old)
        (option_map S.rest content.old) result m }
    // And if it isn't yes, the refusal of the definition.
    ensures verdict { F.tells file.old → IfSome content.old S.tells → StreamVerdictOrDevice
        (terms_of policy.now trust.now (V.vouches verifier.old)) (F.rest file.old)
        (option_map S.rest content.old) result }
    // X1 if the file's source failed, X3 if the file states more than there is room for; otherwise the verdict is
    // right for the octets of the file and for what the source of the content gave.
    ensures judged { StreamChecks (terms_of policy.now trust.now (V.vouches verifier.old))
        (given F.Source file.old file.new buffer.old) S.Source content.old content.new result }
    // The verdict is right with each list of answers that gives the verifier's answers to the file's questions.
    ensures sufficient { StreamSuffices (terms_of policy.now trust.now (V.vouches verifier.old))
        (given F.Source file.old file.new buffer.old) S.Source content.old content.new (Some result) }
    // The verifier is asked only questions of the file.
    ensures only { F.tells file.old → AsksOnly (λ test. V.asked_only test verifier.old verifier.new)
        (IsQuestion trust.now (F.rest file.old)) }
    // And only about signers that fit the content that was judged, and under entries that passed the earlier filters.
    ensures asked { StreamChecksAsking (judge V.Verifier policy.now trust.now verifier.old verifier.new)
        (given F.Source file.old file.new buffer.old) S.Source content.old content.new result }
    // Of each file, also one that isn't known: which device failed, and which refusals there are.
    ensures devices { OfDevices (facts S.Source) (F.failures file.old) (F.failures file.new)
        content.old content.new result }
    // It is asked nothing if one of C1 to C5 refuses, there is too little room or the content could not be read.
    ensures unasked { IsUnjudged result → (test : Asked → Bool) → V.asked_only test verifier.old verifier.new }
    // The file is read to its end, unless the verdict is C1, X1 or X3.
    ensures end { F.tells file.old → IsEarly result ⊎ (F.rest file.new ≡ []) }
    // What the verifier vouches for stays the same.
    ensures same { V.vouches verifier.new ≡ V.vouches verifier.old }
    // The verifier failed exactly if the verdict says so.
    ensures count { CountsAsks result (V.failures verifier.old) (V.failures verifier.new) }
{
    check_stream_with(
        &mut Pass::new(),
        &mut Checker::of(trust, *policy),
        file,
        content,
        buffer,
        verifier,
    )
}

ghost use Rattle.std.specs.Prelude.{◌⊎◌, ℕ, List, IfErr, IfOk};
ghost use Rattle.cli_failures.specs.Files.{IsFailureToRead, IsHeld};
ghost use Rattle.lines_shown.specs.RequestLines.{ShowsRequest};
ghost use Rattle.lines_shown.specs.ResponseLines.{ShowsResponse};
ghost use Rattle.lines_shown.specs.TstLines.{ShowsTst};
ghost use Rattle.lines_shown.specs.CertificateLines.{ShowsCertificate};
ghost use Rattle.lines_shown.specs.SignedLines.{ShowsSigned};
ghost use Rattle.lines_shown.specs.EvidenceLines.{ShowsEvidence};
ghost use Rattle.cli_commands.specs.Showing.{ShowsNone, ShowsNoResponse, ShowsNoTst, ShowsNoCertificate};
ghost use Rattle.cli_commands.specs.Showing.{ShowsNoSignedData, ShowsNoEvidence};

use cli_failures::{Failure, files};
use lines_shown::{
    show_certificate, show_evidence, show_request, show_response, show_signed, show_tst,
};
use std::rt::Files;

/// The lines that show the request in the file of this path.
#[inline(never)]
#[tactic(auto, using(crate::proofs::Shown::no_request))]
pub fn request<'a, R: Files + AllocGlobal>(rt: &R, path: &'a str) -> Result<Vec<u8>, Failure<'a>>
    ensures shown { IfOk result (λ text. (octets : List ℕ) × IsHeld R.File.remaining octets
        × ShowsRequest octets text.items) }
    ensures refused { IfErr result (λ f. IsFailureToRead path.entry f
        ⊎ ((octets : List ℕ) × IsHeld R.File.remaining octets × ShowsNone octets f)) }
{
    let octets = files::read_whole(rt, path)?;
    match show_request::text_of(rt.alloc(), octets.as_slice()) {
        Ok(text) => Ok(text.into_bytes()),
        Err(fault) => Err(Failure::from(fault)),
    }
}

/// The lines that show the response in the file of this path.
#[inline(never)]
#[tactic(auto, using(crate::proofs::Shown::no_response))]
pub fn response<'a, R: Files + AllocGlobal>(rt: &R, path: &'a str) -> Result<Vec<u8>, Failure<'a>>
    ensures shown { IfOk result (λ text. (octets : List ℕ) × IsHeld R.File.remaining octets
        × ShowsResponse octets text.items) }
    ensures refused { IfErr result (λ f. IsFailureToRead path.entry f
        ⊎ ((octets : List ℕ) × IsHeld R.File.remaining octets × ShowsNoResponse octets f)) }
{
    let octets = files::read_whole(rt, path)?;
    match show_response::text_of(rt.alloc(), octets.as_slice()) {
        Ok(text) => Ok(text.into_bytes()),
        Err(fault) => Err(Failure::from(fault)),
    }
}

/// The lines that show the TSTInfo in the file of this path.
#[inline(never)]
#[tactic(auto, using(crate::proofs::Shown::no_tst))]
pub fn tst<'a, R: Files + AllocGlobal>(rt: &R, path: &'a str) -> Result<Vec<u8>, Failure<'a>>
    ensures shown { IfOk result (λ text. (octets : List ℕ) × IsHeld R.File.remaining octets
        × ShowsTst octets text.items) }
    ensures refused { IfErr result (λ f. IsFailureToRead path.entry f
        ⊎ ((octets : List ℕ) × IsHeld R.File.remaining octets × ShowsNoTst octets f)) }
{
    let octets = files::read_whole(rt, path)?;
    match show_tst::text_of(rt.alloc(), octets.as_slice()) {
        Ok(text) => Ok(text.into_bytes()),
        Err(fault) => Err(Failure::from(fault)),
    }
}

/// The lines that show the certificate in the file of this path.
#[inline(never)]
#[tactic(auto, using(crate::proofs::Shown::no_certificate))]
pub fn certificate<'a, R: Files + AllocGlobal>(
    rt: &R,
    path: &'a str,
) -> Result<Vec<u8>, Failure<'a>>
    ensures shown { IfOk result (λ text. (octets : List ℕ) × IsHeld R.File.remaining octets
        × ShowsCertificate octets text.items) }
    ensures refused { IfErr result (λ f. IsFailureToRead path.entry f
        ⊎ ((octets : List ℕ) × IsHeld R.File.remaining octets × ShowsNoCertificate octets f)) }
{
    let octets = files::read_whole(rt, path)?;
    match show_certificate::text_of(rt.alloc(), octets.as_slice()) {
        Ok(text) => Ok(text.into_bytes()),
        Err(fault) => Err(Failure::from(fault)),
    }
}

/// The lines that show the SignedData in the file of this path.
#[inline(never)]
#[tactic(auto, using(crate::proofs::Shown::no_signed_data))]
pub fn signed<'a, R: Files + AllocGlobal>(rt: &R, path: &'a str) -> Result<Vec<u8>, Failure<'a>>
    ensures shown { IfOk result (λ text. (octets : List ℕ) × IsHeld R.File.remaining octets
        × ShowsSigned octets text.items) }
    ensures refused { IfErr result (λ f. IsFailureToRead path.entry f
        ⊎ ((octets : List ℕ) × IsHeld R.File.remaining octets × ShowsNoSignedData octets f)) }
{
    let octets = files::read_whole(rt, path)?;
    match show_signed::text_of(rt.alloc(), octets.as_slice()) {
        Ok(text) => Ok(text.into_bytes()),
        Err(fault) => Err(Failure::from(fault)),
    }
}

/// The lines that show the evidence record in the file of this path.
#[inline(never)]
#[tactic(auto, using(crate::proofs::Shown::no_evidence))]
pub fn evidence<'a, R: Files + AllocGlobal>(rt: &R, path: &'a str) -> Result<Vec<u8>, Failure<'a>>
    ensures shown { IfOk result (λ text. (octets : List ℕ) × IsHeld R.File.remaining octets
        × ShowsEvidence octets text.items) }
    ensures refused { IfErr result (λ f. IsFailureToRead path.entry f
        ⊎ ((octets : List ℕ) × IsHeld R.File.remaining octets × ShowsNoEvidence octets f)) }
{
    let octets = files::read_whole(rt, path)?;
    match show_evidence::text_of(rt.alloc(), octets.as_slice()) {
        Ok(text) => Ok(text.into_bytes()),
        Err(fault) => Err(Failure::from(fault)),
    }
}

ghost use Rattle.std.specs.Prelude.{◌≡◌};
ghost use Rattle.library_answers.specs.Numbers.{nothing};
ghost use Rattle.library_calls.specs.Shown.{IsRequestShown, IsResponseShown, IsTstShown, IsCertificateShown};
ghost use Rattle.library_calls.specs.Shown.{IsShownSigned, IsEvidenceShown, IsNoType};

use cli_failures::Failure;
use library_answers::{Answer, Told, USAGE, tell_made, tell_unmade};
use lines_shown::{
    show_certificate, show_evidence, show_request, show_response, show_signed, show_tst,
};
use std::alloc::Global;

/// Puts the lines of what was read into their room, or says why it wasn't.
macro_rules! tell_lines {
    ($alloc:ident, $shown:expr, $room:ident) => {
        match $shown {
            Ok(lines) => tell_made(lines.as_bytes(), $room),
            Err(fault) => tell_unmade($alloc, &Failure::from(fault), $room),
        }
    };
}

/// The lines of a request.
fn tell_request(alloc: Global, input: &[u8], room: &mut [u8]) -> Told
    ensures { IsRequestShown input.now result.said result.status room.old result.size room.new }
{
    tell_lines!(alloc, show_request::text_of(alloc, input), room)
}

/// The lines of a response.
fn tell_response(alloc: Global, input: &[u8], room: &mut [u8]) -> Told
    ensures { IsResponseShown input.now result.said result.status room.old result.size room.new }
{
    tell_lines!(alloc, show_response::text_of(alloc, input), room)
}

/// The lines of a TSTInfo.
fn tell_tst(alloc: Global, input: &[u8], room: &mut [u8]) -> Told
    ensures { IsTstShown input.now result.said result.status room.old result.size room.new }
{
    tell_lines!(alloc, show_tst::text_of(alloc, input), room)
}

/// The lines of a certificate.
fn tell_certificate(alloc: Global, input: &[u8], room: &mut [u8]) -> Told
    ensures { IsCertificateShown input.now result.said result.status room.old result.size room.new }
{
    tell_lines!(alloc, show_certificate::text_of(alloc, input), room)
}

/// The lines of a SignedData.
fn tell_signed(alloc: Global, input: &[u8], room: &mut [u8]) -> Told
    ensures { IsShownSigned input.now result.said result.status room.old result.size room.new }
{
    tell_lines!(alloc, show_signed::text_of(alloc, input), room)
}

/// The lines of an evidence record.
fn tell_evidence(alloc: Global, input: &[u8], room: &mut [u8]) -> Told
    ensures { IsEvidenceShown input.now result.said result.status room.old result.size room.new }
{
    tell_lines!(alloc, show_evidence::text_of(alloc, input), room)
}

/// What an input of one of six types is: a request, a response, a TSTInfo, a SignedData, a certificate or an evidence
/// record.
pub fn tell_shown(alloc: Global, kind: u32, input: &[u8], room: &mut [u8]) -> Told
    // The lines that show the request that the octets encode, or the fault that they have.
    ensures request { kind ≡ 1 → IsRequestShown input.now result.said result.status room.old result.size room.new }
    // The same for a response.
    ensures response { kind ≡ 2 → IsResponseShown input.now result.said result.status room.old result.size room.new }
    // The same for a TSTInfo.
    ensures tst { kind ≡ 3 → IsTstShown input.now result.said result.status room.old result.size room.new }
    // The same for a SignedData, which may be a ContentInfo of another type.
    ensures signed { kind ≡ 4 → IsShownSigned input.now result.said result.status room.old result.size room.new }
    // The same for a certificate.
    ensures certificate { kind ≡ 5 → IsCertificateShown input.now result.said result.status room.old result.size
        room.new }
    // The same for an evidence record.
    ensures evidence { kind ≡ 6 → IsEvidenceShown input.now result.said result.status room.old result.size room.new }
    // For any other number status 4, no verdict, and no text.
    ensures other { IsNoType kind → (result.status ≡ 4) × (result.said ≡ nothing) × (result.size ≡ 0) × (room.new ≡
        room.old) }
{
    match kind {
        1 => tell_request(alloc, input, room),
        2 => tell_response(alloc, input, room),
        3 => tell_tst(alloc, input, room),
        4 => tell_signed(alloc, input, room),
        5 => tell_certificate(alloc, input, room),
        6 => tell_evidence(alloc, input, room),
        _ => Told::without_text(USAGE, Answer::nothing()),
    }
}

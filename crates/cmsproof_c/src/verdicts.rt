ghost use Rattle.std.specs.Prelude.{◌≡◌};
ghost use Rattle.library_answers.specs.Numbers.{nothing};
ghost use Rattle.library_calls.specs.Checked.{handed};
ghost use Rattle.library_calls.specs.Fit.{IsFit};
ghost use Rattle.library_calls.specs.Comparing.{IsComparison};
ghost use Rattle.library_calls.specs.Matching.{IsMatch};
ghost use Rattle.library_calls.specs.Shown.{IsRequestShown, IsResponseShown, IsTstShown, IsCertificateShown};
ghost use Rattle.library_calls.specs.Shown.{IsShownSigned, IsEvidenceShown, IsNoType};

use library_answers::Answer;
use library_calls::{Input, tell_comparison, tell_fit, tell_match, tell_shown};
use std::alloc::Global;

/// Whether the content and the signed attributes of each signer of a file in memory belong together.
#[unsafe(no_mangle)]
pub extern "C" fn cmsproof_fit(
    alloc: Global,
    file: &[u8],
    content: &[u8],
    content_given: bool,
    sha1: bool,
    text: &mut [u8],
    size: &mut usize,
    said: &mut Answer,
) -> u32
    // How many signers fit, or the first rule that fails, in numbers and as the line.
    ensures { IsFit file.now (handed content_given content.now) sha1 said.new result text.old size.new
        text.new }
{
    let input = Input {
        file,
        content,
        given: content_given,
    };
    put!(tell_fit(alloc, input, sha1, text) => size, said)
}

/// Whether a signer of one file and a signer of another sign the same.
#[unsafe(no_mangle)]
pub extern "C" fn cmsproof_compare(
    alloc: Global,
    first: &[u8],
    first_signer: u64,
    second: &[u8],
    second_signer: u64,
    text: &mut [u8],
    size: &mut usize,
    said: &mut Answer,
) -> u32
    // How they compare by the definitions, or why they are not compared, in numbers and as the line.
    ensures { IsComparison first.now first_signer second.now second_signer said.new result text.old size.new
        text.new }
{
    put!(tell_comparison(alloc, first, first_signer, second, second_signer, text) => size, said)
}

/// Whether a response answers a request.
#[unsafe(no_mangle)]
pub extern "C" fn cmsproof_match(
    alloc: Global,
    request: &[u8],
    response: &[u8],
    text: &mut [u8],
    size: &mut usize,
    said: &mut Answer,
) -> u32
    // Whether it answers by the definitions, or the first rule that fails, in numbers and as the line.
    ensures { IsMatch request.now response.now said.new result text.old size.new text.new }
{
    put!(tell_match(alloc, request, response, text) => size, said)
}

/// What an input of one of six types is: a request, a response, a TSTInfo, a SignedData, a certificate or an evidence
/// record.
#[unsafe(no_mangle)]
pub extern "C" fn cmsproof_show(
    alloc: Global,
    kind: u32,
    input: &[u8],
    text: &mut [u8],
    size: &mut usize,
    said: &mut Answer,
) -> u32
    // The lines that show the request that the octets encode, or the fault that they have.
    ensures request { kind ≡ 1 → IsRequestShown input.now said.new result text.old size.new text.new }
    // The same for a response.
    ensures response { kind ≡ 2 → IsResponseShown input.now said.new result text.old size.new text.new }
    // The same for a TSTInfo.
    ensures tst { kind ≡ 3 → IsTstShown input.now said.new result text.old size.new text.new }
    // The same for a SignedData, which may be a ContentInfo of another type.
    ensures signed { kind ≡ 4 → IsShownSigned input.now said.new result text.old size.new
        text.new }
    // The same for a certificate.
    ensures certificate { kind ≡ 5 → IsCertificateShown input.now said.new result text.old size.new text.new }
    // The same for an evidence record.
    ensures evidence { kind ≡ 6 → IsEvidenceShown input.now said.new result text.old size.new text.new }
    // For any other number status 4, no verdict, and no text.
    ensures other { IsNoType kind → (result ≡ 4) × (said.new ≡ nothing) × (size.new ≡ 0) × (text.new ≡ text.old) }
{
    put!(tell_shown(alloc, kind, input, text) => size, said)
}

ghost use Rattle.std.specs.Prelude.{◌≡◌, IfOk, IfErr, MatchResult};
ghost use Rattle.cms_types.specs.SignedDataValue.{SignedDataValue, SignedContent, encoding};
ghost use Rattle.tsp_requester.specs.Attaching.{Attaches};
ghost use Rattle.library_calls.specs.Attaching.{failure_of_attach, IsUnattached, IsAttaching, IsMadeIfMemory};

use cli_failures::Failure;
use cms_types::CmsFault;
use devices::FromWrite;
use library_answers::{Told, tell_made, tell_unmade};
use std::alloc::Global;
use tsp_requester::{AttachFault, attach};

/// The octets of a file with a token attached to its signer of this number. Writing to a vector fails only if memory is
/// refused.
fn attached(alloc: Global, file: &[u8], signer: u64, token: &[u8]) -> Result<Vec<u8>, AttachFault>
    ensures found { IfOk result (λ octets. (w : SignedDataValue) × Attaches file.now signer token.now w
        × (octets.items ≡ encoding (SignedContent w))) }
    ensures refused { IfErr result (IsUnattached file.now signer token.now) }
    ensures only { (w : SignedDataValue) → Attaches file.now signer token.now w → MatchResult result
        (λ octets. octets.items ≡ encoding (SignedContent w)) (λ why. why ≡ AttachFault.WriteFailed) }
{
    let mut octets = FromWrite::new(Vec::new(alloc));
    match attach(file, signer, token, &mut octets) {
        Ok(()) => Ok(octets.into_inner()),
        Err(fault) => Err(fault),
    }
}

/// What the program says of a token that is not attached.
fn failure_of(fault: AttachFault) -> Failure<'static>
    ensures { result ≡ failure_of_attach fault }
{
    match fault {
        AttachFault::Malformed(CmsFault::Malformed(fault)) => Failure::Malformed(fault),
        AttachFault::WriteFailed => Failure::Memory,
        fault => Failure::Unattached(fault),
    }
}

/// A file with a time-stamp token attached to one of its signers.
pub fn tell_attached(alloc: Global, file: &[u8], signer: u64, token: &[u8], room: &mut [u8]) -> Told
    // The octets of the new file, or the first rule that fails, in numbers and as the line.
    ensures answer { IsAttaching file.now signer token.now result.said result.status room.old result.size room.new }
    // For every SignedData that is the file with the token, its encoding, if there is memory.
    ensures only { (w : SignedDataValue) → Attaches file.now signer token.now w
        → IsMadeIfMemory (encoding (SignedContent w)) result.said result.status room.old result.size room.new }
{
    match attached(alloc, file, signer, token) {
        Ok(octets) => tell_made(&octets, room),
        Err(fault) => tell_unmade(alloc, &failure_of(fault), room),
    }
}

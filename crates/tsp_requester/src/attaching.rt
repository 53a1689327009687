ghost use Rattle.std.specs.Prelude.{IfOk, IfErr};
ghost use Rattle.cms_types.specs.SignedDataValue.{SignedDataValue, SignedContent, encoding};
ghost use Rattle.tsp_requester.specs.Attaching.{Attaches, Refuses, Puts, IsAnswer};
ghost use Rattle.tsp_requester.specs.Pieces.{pieces_value, IsCut};

use crate::fault::AttachFault;
use crate::opening::openings;
use crate::pieces::{Pieces, cut, signer_from};
use crate::putting::put_file;
use crate::stamp::{is_stamp_of, stamp_of};
use cms_types::SignedData;
use devices::Sink;

// The pieces of the file around the place of the token, if it stamps the signer of this number.
fn stamped_pieces<'a>(file: &'a [u8], signer: u64, token: &[u8]) -> Result<Pieces<'a>, AttachFault>
    ensures cuts { IfOk result (λ p. IsCut file.now signer token.now (pieces_value p)) }
    ensures refuses { IfErr result (Refuses file.now signer token.now) }
{
    let signed = match SignedData::read(file) {
        Ok(signed) => signed,
        Err(fault) => return Err(AttachFault::Malformed(fault)),
    };
    let Some((stamped, from)) = signer_from(signed.signers(), signer) else {
        return Err(AttachFault::NoSuchSigner);
    };
    let Some(stamp) = stamp_of(token) else {
        return Err(AttachFault::TokenMalformed);
    };
    if !is_stamp_of(&stamp, stamped.signature()) {
        return Err(AttachFault::ImprintDiffers);
    }
    Ok(cut(file, signed.signers(), &stamped, from))
}

/// Writes the file with the time-stamp token attached to the signer of this number, counted from 1: one attribute,
/// id-aa-timeStampToken with the token as its only value, after the unsigned attributes of that signer, which are added
/// if it has none (RFC 3161 appendix A, RFC 5652 5.3). All else is written as it is in the file, in its order; the
/// lengths of the elements around the attribute are computed again. Nothing is allocated.
///
/// Errors: the first that applies. `Malformed`, with the reason, if the file isn't a SignedData; `NoSuchSigner` if no
/// signer has this number; `TokenMalformed` if the token isn't a SignedData of the type id-ct-TSTInfo whose content is
/// present and encodes a TSTInfo; `ImprintDiffers` if its imprint isn't the digest of the signer's signature, or is by
/// an algorithm that isn't known (SHA-1 is allowed); `TooLong` if a length would exceed 4,294,967,295. With all these
/// nothing was written. `WriteFailed` if the sink fails; then a beginning of the new file was written.
pub fn attach<S: Sink>(
    file: &[u8],
    signer: u64,
    token: &[u8],
    out: &mut S,
) -> Result<(), AttachFault>
    // The token can be attached, and the encoding of the SignedData with it was written, or after `WriteFailed` a
    // beginning of it; or the first rule that fails is named, and nothing was written.
    ensures answer { IsAnswer file.now signer token.now result (S.tells out.old) (S.taken out.old) (S.taken out.new)
        (S.failures out.old) (S.failures out.new) }
    // For every SignedData that is the file with the token, its encoding was written.
    ensures only { (w : SignedDataValue) → Attaches file.now signer token.now w
        → Puts (encoding (SignedContent w)) result (S.tells out.old) (S.taken out.old) (S.taken out.new)
        (S.failures out.old) (S.failures out.new) }
    // If it was known what the sink took, it still is.
    ensures telling { S.tells out.old → S.tells out.new }
{
    let pieces = stamped_pieces(file, signer, token)?;
    let Ok(openings) = openings(&pieces, token) else {
        return Err(AttachFault::TooLong);
    };
    match put_file(out, &openings[..], token, pieces.behind) {
        Ok(()) => Ok(()),
        Err(_fault) => Err(AttachFault::WriteFailed),
    }
}

ghost use Rattle.std.specs.Prelude.{IfErr, IfOk};
ghost use Rattle.cli_failures.specs.Signatures.{HasNoSigner, IsSignatureDigest};

use crate::failure::Failure;
use cms_types::{CmsFault, SignedData};
use digests::{Alg, Digest, digest};
use tsp_requester::AttachFault;

/// The digest of the signature of the signer of this number, from 1, in the SignedData that the octets of a file
/// encode.
///
/// Errors: `Malformed` and `Unattached`.
pub fn digest_of<'a>(file: &[u8], number: u64, alg: Alg) -> Result<Digest, Failure<'a>>
    // Returns the digest by this algorithm of the signature of the signer of this number.
    ensures found { IfOk result (IsSignatureDigest alg file.now number) }
    // An error says that the file has no such signature, and why.
    ensures refused { IfErr result (HasNoSigner file.now number) }
{
    let signed = match SignedData::read(file) {
        Ok(signed) => signed,
        Err(CmsFault::Malformed(fault)) => return Err(Failure::Malformed(fault)),
        Err(CmsFault::NotSignedData) => {
            return Err(Failure::Unattached(AttachFault::Malformed(CmsFault::NotSignedData)));
        }
        Err(CmsFault::OutOfMemory) => unreachable!(),
    };
    match signed.signers().get(number) {
        Some(signer) => Ok(digest(alg, signer.signature())),
        None => Err(Failure::Unattached(AttachFault::NoSuchSigner)),
    }
}

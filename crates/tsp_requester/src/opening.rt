ghost use Rattle.std.specs.Prelude.{◌≡◌, ◌+◌, ◌^◌, ◌<◌, ◌↔◌, ◌++◌, ℕ, List, length, IfOk, IsErr};
ghost use Rattle.der_core.specs.Element.{el};
ghost use Rattle.tsp_requester.specs.Pieces.{pieces_value, opening_octets, openings_octets, file_of, FitInside};

use crate::pieces::Pieces;
use der_core::tags::{SEQUENCE, SET};
use der_core::{Header, TooLong, header};

/// The identifier octet of a content, `[0] EXPLICIT` (RFC 5652 3).
const CONTENT: u8 = 0xa0;

/// The identifier octet of unsigned attributes, `[1] IMPLICIT` (RFC 5652 5.3).
const UNSIGNED_ATTRIBUTES: u8 = 0xa1;

/// The whole OBJECT IDENTIFIER id-signedData (RFC 5652 5.1).
const SIGNED_DATA: [u8; 11] = [
    0x06, 0x09, 0x2a, 0x86, 0x48, 0x86, 0xf7, 0x0d, 0x01, 0x07, 0x02,
];

/// The whole OBJECT IDENTIFIER id-aa-timeStampToken (RFC 3161 appendix A).
const TIME_STAMP_TOKEN: [u8; 13] = [
    0x06, 0x0b, 0x2a, 0x86, 0x48, 0x86, 0xf7, 0x0d, 0x01, 0x09, 0x10, 0x02, 0x0e,
];

// The beginning of an element: its header, and the first of its contents. Its size is that of the whole element.
#[derive(Drop)]
pub(crate) struct Opening<'a> {
    pub(crate) header: Header,
    pub(crate) front: &'a [u8],
    pub(crate) size: u64,
}

// The beginning of an element with `inside` octets after the first of its contents.
fn open<'a>(tag: u8, front: &'a [u8], inside: u64) -> Result<Opening<'a>, TooLong>
    ensures opens { IfOk result (λ o. (inner : List ℕ) → length inner ≡ inside
        → (el tag (front.now ++ inner) ≡ opening_octets o ++ inner) × (length (el tag (front.now ++ inner)) ≡ o.size)) }
    ensures size { IfOk result (λ o. o.size < 2 ^ 33) }
    ensures too_long { IsErr result ↔ 4294967295 < length front.now + inside }
{
    let contents = (front.len() as u64).saturating_add(inside);
    let header = header(tag, contents)?;
    let size = header.bytes().len() as u64 + contents;
    Ok(Opening {
        header,
        front,
        size,
    })
}

// The beginnings of the elements around a token that is attached, from the outside.
pub(crate) fn openings<'a>(pieces: &Pieces<'a>, token: &[u8]) -> Result<[Opening<'a>; 8], TooLong>
    ensures opens { IfOk result (λ os. openings_octets os
        ++ (token.now ++ pieces.now.behind.now) ≡ file_of (pieces_value pieces.now) token.now) }
    ensures fit { IfOk result (λ os. FitInside (pieces_value pieces.now) token.now) }
    ensures too_long { IsErr result → FitInside (pieces_value pieces.now) token.now → ⊥ }
{
    let behind = pieces.behind.len() as u64;
    let values = open(SET, &[], token.len() as u64)?;
    let attribute = open(SEQUENCE, &TIME_STAMP_TOKEN, values.size)?;
    let unsigned = open(UNSIGNED_ATTRIBUTES, pieces.unsigned, attribute.size)?;
    let signer = open(SEQUENCE, pieces.signer_front, unsigned.size)?;
    let signers = open(SET, pieces.before, signer.size + behind)?;
    let data = open(SEQUENCE, pieces.data_front, signers.size)?;
    let content = open(CONTENT, &[], data.size)?;
    let info = open(SEQUENCE, &SIGNED_DATA, content.size)?;
    Ok([
        info, content, data, signers, signer, unsigned, attribute, values,
    ])
}

ghost use Rattle.std.specs.Prelude.{◌≡◌, ◌++◌, ℕ, List, length, MatchOption, None};
ghost use Rattle.der_core.specs.Element.{el, IsElement};
ghost use Rattle.der_core.specs.Values.{HasLength};
ghost use Rattle.der_lists.specs.Numbers.{of_number};
ghost use Rattle.cms_types.specs.SignedDataValue.{SignedDataValue, EncodesSignedData, signed_data_parts};
ghost use Rattle.cms_types.specs.SignerValue.{GoodSigner, signer_parts};
ghost use Rattle.tsp_requester.specs.Pieces.{IsPlace, pieces_value, pieces_of, signer_front, unsigned_octets};

use cms_types::{Signer, Signers};
use der_core::{Cursor, header};

// The parts of a file that are kept, in its order: the parts of the SignedData before its signers, the signers before
// the one that is stamped, the parts of that one before its unsigned attributes, those attributes, and the signers
// after it.
#[derive(Drop)]
pub(crate) struct Pieces<'a> {
    pub(crate) data_front: &'a [u8],
    pub(crate) before: &'a [u8],
    pub(crate) signer_front: &'a [u8],
    pub(crate) unsigned: &'a [u8],
    pub(crate) behind: &'a [u8],
}

// The contents of the first element of the octets, and what follows it.
fn first<'a>(octets: &'a [u8]) -> (&'a [u8], &'a [u8])
    ensures { (t : ℕ) (b r : List ℕ) → IsElement t b → octets.now ≡ el t b
        ++ r → (result.0.now ≡ b) × (result.1.now ≡ r) }
{
    let mut input = Cursor::new(octets, 0);
    match input.next() {
        Ok(element) => (element.body, input.rest()),
        Err(_) => (&[], &[]),
    }
}

// The octets before the last element, whose contents have this many octets.
fn before_last<'a>(octets: &'a [u8], contents: usize) -> &'a [u8]
    ensures { (f : List ℕ) (t : ℕ) (b : List ℕ) → HasLength b
        → length b ≡ contents → octets.now ≡ f ++ el t b → result.now ≡ f }
{
    let Ok(header) = header(0, contents as u64) else {
        return octets;
    };
    let size = header.bytes().len() + contents;
    &octets[..octets.len().saturating_sub(size)]
}

// The contents of the SignedData of a file.
fn data_of<'a>(file: &'a [u8]) -> &'a [u8]
    ensures { (v : SignedDataValue) → EncodesSignedData file.now v → result.now ≡ signed_data_parts v }
{
    let (info, _) = first(file);
    let (_, content) = first(info);
    let (data, _) = first(content);
    let (parts, _) = first(data);
    parts
}

// The signer of this number, counted from 1, and the octets of it and of the signers after it.
pub(crate) fn signer_from<'a>(signers: &Signers<'a>, number: u64) -> Option<(Signer<'a>, &'a [u8])>
    ensures { MatchOption result (of_number signers.now number ≡ None) (λ x. IsPlace signers.now number x.0 x.1.now) }
{
    let mut before = number.checked_sub(1)?;
    let mut left = signers.again();
    while let Some((signer, others)) = left.next() {
        if before == 0 {
            return Some((signer, left.bytes()));
        }
        before -= 1;
        left = others;
    }
    None
}

fn unsigned_of<'a>(signer: &Signer<'a>) -> &'a [u8]
    ensures { result.now ≡ unsigned_octets signer.now.unsigned_attributes }
{
    match signer.unsigned_attributes() {
        Some(list) => list.bytes(),
        None => &[],
    }
}

// The parts of a signer before its unsigned attributes.
fn front_of<'a>(signer: &Signer<'a>, parts: &'a [u8]) -> &'a [u8]
    ensures { GoodSigner signer.now → parts.now ≡ signer_parts signer.now → result.now ≡ signer_front signer.now }
{
    match signer.unsigned_attributes() {
        Some(list) => before_last(parts, list.bytes().len()),
        None => parts,
    }
}

// The pieces of a file with these signers, of which this one is stamped; `from` are the octets of it and of those after
// it.
pub(crate) fn cut<'a>(
    file: &'a [u8],
    signers: &Signers<'a>,
    signer: &Signer<'a>,
    from: &'a [u8],
) -> Pieces<'a>
    ensures { (v : SignedDataValue) (number : ℕ) → EncodesSignedData file.now v
        → signers.now ≡ v.signers → IsPlace v.signers number signer.now from.now
        → pieces_value result ≡ pieces_of v number signer.now }
{
    let all = signers.bytes();
    let (parts, behind) = first(from);
    Pieces {
        data_front: before_last(data_of(file), all.len()),
        before: &all[..all.len().saturating_sub(from.len())],
        signer_front: front_of(signer, parts),
        unsigned: unsigned_of(signer),
        behind,
    }
}

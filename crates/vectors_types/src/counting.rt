//! A function over attributes that knows nothing of their octets.
ghost use Rattle.std.specs.Prelude.{◌≡◌, ◌≤◌, ◌^◌, length, filter, MatchOption};
ghost use Rattle.std.specs.List.{flat_map};
ghost use Rattle.der_core.specs.Lists.{is_same};

use cms_types::{Attributes, SignedData};
use der_core::octets::is_same;
use vectors::{Bad, Row, Said};

/// How many values the attributes of a type have, or `None` if a `usize` can't count them.
fn count_of(attributes: &Attributes, id: &[u8]) -> Option<usize>
    ensures { let count = length (flat_map (λ a. a.values) (filter (λ a. is_same a.id id.now) attributes.now)) in
        MatchOption result (2 ^ 64 ≤ count) (λ n. n ≡ count) }
{
    let mut count = 0usize;
    let mut left = attributes.again();
    while let Some((attribute, others)) = left.next() {
        if is_same(attribute.id().bytes(), id) {
            count = count.checked_add(attribute.values().len())?;
        }
        left = others;
    }
    Some(count)
}

/// `values_counted of type`: how many values the signed and the unsigned attributes of a type of the first signer have.
pub fn values_counted(said: &mut Said, row: &Row<'_>, octets: &[u8]) {
    let id = said.given(row, "type");
    match counts_of(octets, id.as_slice()) {
        Some((signed, unsigned)) => {
            said.shown(&signed);
            said.shown(&unsigned);
        }
        None => said.refuse(Bad::Text("no such attributes")),
    }
}

fn counts_of(octets: &[u8], id: &[u8]) -> Option<(usize, usize)> {
    let file = SignedData::read(octets).ok()?;
    let (signer, _) = file.signers().next()?;
    let signed = count_of(signer.attributes()?, id)?;
    Some((signed, count_of(signer.unsigned_attributes()?, id)?))
}

ghost use Rattle.std.specs.Prelude.{◌≡◌, ◌==◌, ◌∷◌, [], length, MatchOption};
ghost use Rattle.der_core.specs.Reading.{Gives};
ghost use Rattle.evidence_types.specs.StampReading.{values_in};
ghost use Rattle.evidence_types.specs.StampValue.{hash_list_parts};

use der_core::tags::{OCTET_STRING, SEQUENCE};
use der_core::{Cursor, Fault, Kind};
use der_lists::{Item, ListIter, ListView, next_item, scan_items};
use std::marker::Model;

/// A hash value of a list (RFC 4998 4.1): the octets of an OCTET STRING, which may be any octets.
///
/// Contracts see these octets.
#[derive(Debug, Drop)]
pub struct HashValue<'a> {
    octets: &'a [u8],
}

impl<'a> Model for HashValue<'a> {
    ghost use Rattle.std.specs.Prelude.{List, ℕ};

    ghost Value = { List ℕ };

    ghost view = { λ v. v.octets.now };
}

impl<'a> HashValue<'a> {
    /// The octets.
    pub fn bytes(&self) -> &'a [u8]
        ensures { result.now ≡ self.now }
    {
        self.octets
    }
}

impl<'a> Item<'a> for HashValue<'a> {
    ghost use Rattle.der_core.specs.Reading.{within, any_at};
    ghost use Rattle.der_lists.specs.Shorter.{within_shorter};

    ghost reading = { within 0x04 any_at };

    ghost shorter = { within_shorter 0x04 any_at };

    fn take(list: &mut Cursor<'a>) -> Result<HashValue<'a>, Fault> {
        let (octets, _) = list.contents(OCTET_STRING)?;
        Ok(HashValue { octets })
    }
}

/// A list of hash values (PartialHashtree, RFC 4998 4.1), as a view of the octets of the list.
///
/// Contracts see the list of their octets in the order in which they occur.
#[derive(Debug, Drop)]
pub struct HashList<'a> {
    list: Cursor<'a>,
    // How many there are.
    count: usize,
}

impl<'a> Model for HashList<'a> {
    ghost use Rattle.std.specs.Prelude.{List, ℕ};
    ghost use Rattle.der_core.specs.Reading.{within, any_at};
    ghost use Rattle.der_lists.specs.Items.{all_in, IsCounted};

    ghost Value = { List (List ℕ) };

    ghost view = { λ v. all_in (within 0x04 any_at) v.list };

    ghost invariant = { λ v. IsCounted (within 0x04 any_at) v.list v.count };
}

impl<'a> HashList<'a> {
    // The hash values from the cursor to the end of its body.
    fn read(list: Cursor<'a>) -> Result<HashList<'a>, Fault>
        ensures { Gives (λ v. v) result (values_in list.entry) }
    {
        let count = scan_items::<HashValue>(&list)?;
        Ok(HashList { list, count })
    }

    /// The octets of the hash values, one after the other, as in the contents of their list (RFC 4998 4.1).
    pub fn bytes(&self) -> &'a [u8]
        // Returns the encodings of the hash values, one after the other.
        ensures { result.now ≡ hash_list_parts self.now }
    {
        self.list.rest()
    }

    /// The first hash value and the others, or `None` if there is none.
    pub fn next(&self) -> Option<(HashValue<'a>, HashList<'a>)>
        ensures { MatchOption result (self.now ≡ []) (λ x. self.now ≡ x.0 ∷ x.1) }
    {
        let (first, list) = next_item::<HashValue>(&self.list)?;
        Some((
            first,
            HashList {
                list,
                count: self.count - 1,
            },
        ))
    }

    /// The same hash values again.
    pub fn again(&self) -> HashList<'a>
        ensures { result ≡ self.now }
    {
        HashList {
            list: self.list.again(),
            count: self.count,
        }
    }

    /// Whether there is none.
    pub fn is_empty(&self) -> bool
        ensures { result ≡ (length self.now == 0) }
    {
        self.len() == 0
    }

    /// How many there are.
    pub fn len(&self) -> usize
        ensures { result ≡ length self.now }
    {
        self.count
    }

    /// The hash values, one after another.
    pub fn iter(&self) -> ListIter<HashList<'a>>
        ensures { result.left ≡ self.now }
    {
        ListIter { left: self.again() }
    }
}

impl<'a> ListView for HashList<'a> {
    type Item = HashValue<'a>;

    ghost items = { λ v. v };

    fn first(&self) -> Option<(HashValue<'a>, HashList<'a>)> {
        self.next()
    }
}

impl<'a> Item<'a> for HashList<'a> {
    ghost use Rattle.evidence_types.specs.FilledReading.{within_filled, filled_shorter};
    ghost use Rattle.evidence_types.specs.StampReading.{values_in};

    ghost reading = { within_filled 0x30 values_in };

    ghost shorter = { filled_shorter 0x30 values_in };

    fn take(list: &mut Cursor<'a>) -> Result<HashList<'a>, Fault> {
        let at = list.position();
        let inside = list.enter(SEQUENCE)?;
        if inside.is_empty() {
            return Err(Fault::new(Kind::Empty, at));
        }
        HashList::read(inside)
    }
}

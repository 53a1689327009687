ghost use Rattle.std.specs.Prelude.{◌≡◌, ◌==◌, ◌∷◌, [], length, MatchOption, option_map};
ghost use Rattle.der_core.specs.Reading.{Gives, Moves, maybe_filled};
ghost use Rattle.evidence_types.specs.StampReading.{lists_in};

use crate::hash_list::HashList;
use der_core::{Cursor, Fault, Kind};
use der_lists::{ListIter, ListView, next_item, scan_items};
use std::marker::Model;

/// The lists of hash values of an archive time-stamp (`reducedHashtree`, RFC 4998 4.1), as a view of the octets of a
/// list of them.
///
/// Contracts see the list of their lists in the order in which they occur.
#[derive(Debug, Drop)]
pub struct HashLists<'a> {
    list: Cursor<'a>,
    // How many there are.
    count: usize,
}

impl<'a> Model for HashLists<'a> {
    ghost use Rattle.std.specs.Prelude.{List, ℕ};
    ghost use Rattle.der_lists.specs.Items.{all_in, IsCounted};
    ghost use Rattle.evidence_types.specs.FilledReading.{within_filled};
    ghost use Rattle.evidence_types.specs.StampReading.{values_in};

    ghost Value = { List (List (List ℕ)) };

    ghost view = { λ l. all_in (within_filled 0x30 values_in) l.list };

    ghost invariant = { λ l. IsCounted (within_filled 0x30 values_in) l.list l.count };
}

impl<'a> HashLists<'a> {
    // The lists from the cursor to the end of its body.
    fn read(list: Cursor<'a>) -> Result<HashLists<'a>, Fault>
        ensures { Gives (λ l. l) result (lists_in list.entry) }
    {
        let count = scan_items::<HashList>(&list)?;
        Ok(HashLists { list, count })
    }

    // The lists in the element whose identifier is `tag`, if it is present: at least one.
    pub(crate) fn optional(parts: &mut Cursor<'a>, tag: u8) -> Result<Option<HashLists<'a>>, Fault>
        ensures { Moves (option_map (λ l. l)) result parts.old parts.new (maybe_filled tag lists_in parts.old) }
    {
        if !parts.has(tag) {
            return Ok(None);
        }
        let mut ahead = parts.again();
        let inside = ahead.enter(tag)?;
        if inside.is_empty() {
            return Err(Fault::new(Kind::Empty, parts.position()));
        }
        let lists = HashLists::read(inside)?;
        *parts = ahead;
        Ok(Some(lists))
    }

    /// The first list and the others, or `None` if there is none.
    pub fn next(&self) -> Option<(HashList<'a>, HashLists<'a>)>
        ensures { MatchOption result (self.now ≡ []) (λ x. self.now ≡ x.0 ∷ x.1) }
    {
        let (first, list) = next_item::<HashList>(&self.list)?;
        Some((
            first,
            HashLists {
                list,
                count: self.count - 1,
            },
        ))
    }

    /// The same lists again.
    pub fn again(&self) -> HashLists<'a>
        ensures { result ≡ self.now }
    {
        HashLists {
            list: self.list.again(),
            count: self.count,
        }
    }

    /// Whether there is none.
    pub fn is_empty(&self) -> bool
        ensures { result ≡ (length self.now == 0) }
    {
        self.len() == 0
    }

    /// How many there are.
    pub fn len(&self) -> usize
        ensures { result ≡ length self.now }
    {
        self.count
    }

    /// The lists, one after another.
    pub fn iter(&self) -> ListIter<HashLists<'a>>
        ensures { result.left ≡ self.now }
    {
        ListIter { left: self.again() }
    }
}

impl<'a> ListView for HashLists<'a> {
    type Item = HashList<'a>;

    ghost items = { λ l. l };

    fn first(&self) -> Option<(HashList<'a>, HashLists<'a>)> {
        self.next()
    }
}

ghost use Rattle.std.specs.Prelude.{◌≡◌, ◌==◌, ◌∷◌, [], length, MatchOption};
ghost use Rattle.std.specs.List.{AllByRecursion};
ghost use Rattle.der_core.specs.Reading.{Gives};
ghost use Rattle.evidence_types.specs.EvidenceReading.{stamps_in};
ghost use Rattle.evidence_types.specs.EvidenceValue.{chain_parts};
ghost use Rattle.evidence_types.specs.StampValue.{GoodStamp};

use crate::archive_time_stamp::ArchiveTimeStamp;
use der_core::tags::SEQUENCE;
use der_core::{Cursor, Fault, Kind};
use der_lists::{Item, ListIter, ListView, next_item, scan_items};
use std::marker::Model;

/// A chain of archive time-stamps (ArchiveTimeStampChain, RFC 4998 5.1), as a view of the octets of a list of them.
///
/// Contracts see the list of their `StampValue`s in the order in which they occur.
#[derive(Debug, Drop)]
pub struct Chain<'a> {
    list: Cursor<'a>,
    // How many there are.
    count: usize,
}

impl<'a> Model for Chain<'a> {
    ghost use Rattle.std.specs.Prelude.{List};
    ghost use Rattle.der_core.specs.Reading.{within};
    ghost use Rattle.der_lists.specs.Items.{all_in, IsCounted};
    ghost use Rattle.evidence_types.specs.StampValue.{StampValue};
    ghost use Rattle.evidence_types.specs.StampReading.{stamp_in};

    ghost Value = { List StampValue };

    ghost view = { λ c. all_in (within 0x30 stamp_in) c.list };

    ghost invariant = { λ c. IsCounted (within 0x30 stamp_in) c.list c.count };
}

impl<'a> Chain<'a> {
    // The time-stamps from the cursor to the end of its body.
    fn read(list: Cursor<'a>) -> Result<Chain<'a>, Fault>
        ensures { Gives (λ c. c) result (stamps_in list.entry) }
    {
        let count = scan_items::<ArchiveTimeStamp>(&list)?;
        Ok(Chain { list, count })
    }

    /// The octets of the time-stamps, one after the other, as in the contents of the chain (RFC 4998 5.1).
    pub fn bytes(&self) -> &'a [u8]
        // Returns the encodings of the time-stamps, one after the other.
        ensures joined { result.now ≡ chain_parts self.now }
        // Each of the time-stamps is good.
        ensures each { AllByRecursion GoodStamp self.now }
    {
        self.list.rest()
    }

    /// The first time-stamp and the others, or `None` if there is none.
    pub fn next(&self) -> Option<(ArchiveTimeStamp<'a>, Chain<'a>)>
        ensures { MatchOption result (self.now ≡ []) (λ x. self.now ≡ x.0 ∷ x.1) }
    {
        let (first, list) = next_item::<ArchiveTimeStamp>(&self.list)?;
        Some((
            first,
            Chain {
                list,
                count: self.count - 1,
            },
        ))
    }

    /// The same time-stamps again.
    pub fn again(&self) -> Chain<'a>
        ensures { result ≡ self.now }
    {
        Chain {
            list: self.list.again(),
            count: self.count,
        }
    }

    /// Whether there is none.
    pub fn is_empty(&self) -> bool
        ensures { result ≡ (length self.now == 0) }
    {
        self.len() == 0
    }

    /// How many there are.
    pub fn len(&self) -> usize
        ensures { result ≡ length self.now }
    {
        self.count
    }

    /// The time-stamps, one after another.
    pub fn iter(&self) -> ListIter<Chain<'a>>
        ensures { result.left ≡ self.now }
    {
        ListIter { left: self.again() }
    }
}

impl<'a> ListView for Chain<'a> {
    type Item = ArchiveTimeStamp<'a>;

    ghost items = { λ c. c };

    fn first(&self) -> Option<(ArchiveTimeStamp<'a>, Chain<'a>)> {
        self.next()
    }
}

impl<'a> Item<'a> for Chain<'a> {
    ghost use Rattle.evidence_types.specs.FilledReading.{within_filled, filled_shorter};
    ghost use Rattle.evidence_types.specs.EvidenceReading.{stamps_in};

    ghost reading = { within_filled 0x30 stamps_in };

    ghost shorter = { filled_shorter 0x30 stamps_in };

    fn take(list: &mut Cursor<'a>) -> Result<Chain<'a>, Fault> {
        let at = list.position();
        let inside = list.enter(SEQUENCE)?;
        if inside.is_empty() {
            return Err(Fault::new(Kind::Empty, at));
        }
        Chain::read(inside)
    }
}

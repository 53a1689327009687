ghost use Rattle.std.specs.Prelude.{◌≡◌, ◌==◌, ◌∷◌, [], length, MatchOption};
ghost use Rattle.std.specs.List.{AllByRecursion};
ghost use Rattle.der_core.specs.Reading.{Gives, Moves};
ghost use Rattle.evidence_types.specs.FilledReading.{within_filled};
ghost use Rattle.evidence_types.specs.EvidenceReading.{chains_in};
ghost use Rattle.evidence_types.specs.EvidenceValue.{chains_parts, GoodChain};

use crate::chain::Chain;
use der_core::tags::SEQUENCE;
use der_core::{Cursor, Fault, Kind};
use der_lists::{ListIter, ListView, next_item, scan_items};
use std::marker::Model;

/// The chains of an evidence record (ArchiveTimeStampSequence, RFC 4998 5.1), as a view of the octets of a list of
/// them.
///
/// Contracts see the list of their lists of `StampValue`s in the order in which they occur.
#[derive(Debug, Drop)]
pub struct Chains<'a> {
    list: Cursor<'a>,
    // How many there are.
    count: usize,
}

impl<'a> Model for Chains<'a> {
    ghost use Rattle.std.specs.Prelude.{List};
    ghost use Rattle.der_lists.specs.Items.{all_in, IsCounted};
    ghost use Rattle.evidence_types.specs.StampValue.{StampValue};
    ghost use Rattle.evidence_types.specs.FilledReading.{within_filled};
    ghost use Rattle.evidence_types.specs.EvidenceReading.{stamps_in};

    ghost Value = { List (List StampValue) };

    ghost view = { λ c. all_in (within_filled 0x30 stamps_in) c.list };

    ghost invariant = { λ c. IsCounted (within_filled 0x30 stamps_in) c.list c.count };
}

impl<'a> Chains<'a> {
    // The chains from the cursor to the end of its body.
    fn read_list(list: Cursor<'a>) -> Result<Chains<'a>, Fault>
        ensures { Gives (λ c. c) result (chains_in list.entry) }
    {
        let count = scan_items::<Chain>(&list)?;
        Ok(Chains { list, count })
    }

    // The chains in the SEQUENCE at the cursor: at least one.
    pub(crate) fn read(parts: &mut Cursor<'a>) -> Result<Chains<'a>, Fault>
        ensures { Moves (λ c. c) result parts.old parts.new (within_filled 0x30 chains_in parts.old) }
    {
        let mut ahead = parts.again();
        let inside = ahead.enter(SEQUENCE)?;
        if inside.is_empty() {
            return Err(Fault::new(Kind::Empty, parts.position()));
        }
        let chains = Chains::read_list(inside)?;
        *parts = ahead;
        Ok(chains)
    }

    /// The octets of the chains, one after the other, as in the contents of the sequence of chains (RFC 4998 5.1).
    pub fn bytes(&self) -> &'a [u8]
        // Returns the encodings of the chains, one after the other.
        ensures joined { result.now ≡ chains_parts self.now }
        // Each of the chains is good.
        ensures each { AllByRecursion GoodChain self.now }
    {
        self.list.rest()
    }

    /// The first chain and the others, or `None` if there is none.
    pub fn next(&self) -> Option<(Chain<'a>, Chains<'a>)>
        ensures { MatchOption result (self.now ≡ []) (λ x. self.now ≡ x.0 ∷ x.1) }
    {
        let (first, list) = next_item::<Chain>(&self.list)?;
        Some((
            first,
            Chains {
                list,
                count: self.count - 1,
            },
        ))
    }

    /// The same chains again.
    pub fn again(&self) -> Chains<'a>
        ensures { result ≡ self.now }
    {
        Chains {
            list: self.list.again(),
            count: self.count,
        }
    }

    /// Whether there is none.
    pub fn is_empty(&self) -> bool
        ensures { result ≡ (length self.now == 0) }
    {
        self.len() == 0
    }

    /// How many there are.
    pub fn len(&self) -> usize
        ensures { result ≡ length self.now }
    {
        self.count
    }

    /// The chains, one after another.
    pub fn iter(&self) -> ListIter<Chains<'a>>
        ensures { result.left ≡ self.now }
    {
        ListIter { left: self.again() }
    }
}

impl<'a> ListView for Chains<'a> {
    type Item = Chain<'a>;

    ghost items = { λ c. c };

    fn first(&self) -> Option<(Chain<'a>, Chains<'a>)> {
        self.next()
    }
}

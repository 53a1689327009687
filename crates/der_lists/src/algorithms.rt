ghost use Rattle.std.specs.Prelude.{◌≡◌, ◌==◌, ◌∷◌, [], length, MatchOption};
ghost use Rattle.der_core.specs.Reading.{Gives, within, many_in};
ghost use Rattle.der_core.specs.AlgorithmReading.{algorithm_in};

use crate::item::Item;
use crate::iter::{ListIter, ListView};
use crate::list::next_item;
use crate::scans::scan_items;
use der_core::{AlgorithmIdentifier, Cursor, Fault};
use std::marker::Model;

impl<'a> Item<'a> for AlgorithmIdentifier<'a> {
    ghost use Rattle.der_core.specs.Reading.{within};
    ghost use Rattle.der_core.specs.AlgorithmReading.{algorithm_in};
    ghost use Rattle.der_lists.specs.Shorter.{within_shorter};

    ghost reading = { within 0x30 algorithm_in };

    ghost shorter = { within_shorter 0x30 algorithm_in };

    fn take(list: &mut Cursor<'a>) -> Result<AlgorithmIdentifier<'a>, Fault> {
        list.algorithm()
    }
}

/// AlgorithmIdentifiers (RFC 5280 4.1.1.2), one after the other.
///
/// Contracts see the list of their `AlgorithmValue`s in the order in which they occur.
#[derive(Debug, Drop)]
pub struct AlgorithmIdentifiers<'a> {
    list: Cursor<'a>,
    // How many there are.
    count: usize,
}

impl<'a> Model for AlgorithmIdentifiers<'a> {
    ghost use Rattle.std.specs.Prelude.{List};
    ghost use Rattle.der_core.specs.Reading.{within};
    ghost use Rattle.der_core.specs.AlgorithmReading.{algorithm_in};
    ghost use Rattle.der_core.specs.Values.{AlgorithmValue};
    ghost use Rattle.der_lists.specs.Items.{all_in, IsCounted};

    ghost Value = { List AlgorithmValue };

    ghost view = { λ a. all_in (within 0x30 algorithm_in) a.list };

    ghost invariant = { λ a. IsCounted (within 0x30 algorithm_in) a.list a.count };
}

impl<'a> AlgorithmIdentifiers<'a> {
    /// The AlgorithmIdentifiers from the cursor to the end of its body.
    ///
    /// Faults: at each of them those of `Cursor::algorithm`.
    pub fn read(list: Cursor<'a>) -> Result<AlgorithmIdentifiers<'a>, Fault>
        // Returns the list or the fault that its reading gives.
        ensures { Gives (λ a. a) result (many_in (within 0x30 algorithm_in) list.entry) }
    {
        let count = scan_items::<AlgorithmIdentifier>(&list)?;
        Ok(AlgorithmIdentifiers { list, count })
    }

    /// The first and the others, or `None` if there is none.
    pub fn next(&self) -> Option<(AlgorithmIdentifier<'a>, AlgorithmIdentifiers<'a>)>
        ensures { MatchOption result (self.now ≡ []) (λ x. self.now ≡ x.0 ∷ x.1) }
    {
        let (first, list) = next_item::<AlgorithmIdentifier>(&self.list)?;
        Some((
            first,
            AlgorithmIdentifiers {
                list,
                count: self.count - 1,
            },
        ))
    }

    /// The same list again.
    pub fn again(&self) -> AlgorithmIdentifiers<'a>
        ensures { result ≡ self.now }
    {
        AlgorithmIdentifiers {
            list: self.list.again(),
            count: self.count,
        }
    }

    /// Whether there is none.
    pub fn is_empty(&self) -> bool
        ensures { result ≡ (length self.now == 0) }
    {
        self.len() == 0
    }

    /// How many there are.
    pub fn len(&self) -> usize
        ensures { result ≡ length self.now }
    {
        self.count
    }

    /// The AlgorithmIdentifiers, one after another.
    pub fn iter(&self) -> ListIter<AlgorithmIdentifiers<'a>>
        ensures { result.left ≡ self.now }
    {
        ListIter { left: self.again() }
    }
}

impl<'a> ListView for AlgorithmIdentifiers<'a> {
    type Item = AlgorithmIdentifier<'a>;

    ghost items = { λ a. a };

    fn first(&self) -> Option<(AlgorithmIdentifier<'a>, AlgorithmIdentifiers<'a>)> {
        self.next()
    }
}

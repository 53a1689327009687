ghost use Rattle.std.specs.Prelude.{◌≡◌};
ghost use Rattle.der_core.specs.Reading.{Gives};
ghost use Rattle.der_lists.specs.Items.{opaque_item, opaque_front, explicit_opaque_in};

use crate::item::{Item, RankedItem};
use der_core::{Cursor, Fault};
use std::marker::Model;

/// An element of any kind, kept whole.
///
/// Contracts see its octets.
#[derive(Debug, Drop)]
pub struct Opaque<'a> {
    whole: &'a [u8],
}

impl<'a> Model for Opaque<'a> {
    ghost use Rattle.std.specs.Prelude.{List, ℕ};

    ghost Value = { List ℕ };

    ghost view = { λ o. o.whole.now };
}

impl<'a> Opaque<'a> {
    /// The element that fills a whole body, as inside an explicit tag.
    ///
    /// Faults: those of `Cursor::next`, and `Trailing` at what follows the element.
    #[tactic(auto, unfolding(crate::specs::Items::explicit_opaque_in))]
    pub fn read(mut inside: Cursor<'a>) -> Result<Opaque<'a>, Fault>
        // Returns the element that fills the body, or the fault that its reading gives.
        ensures { Gives (λ o. o) result (explicit_opaque_in inside.entry) }
    {
        let element = Opaque::take(&mut inside)?;
        inside.end()?;
        Ok(element)
    }

    /// The whole element.
    pub fn whole(&self) -> &'a [u8]
        ensures { result.now ≡ self.now }
    {
        self.whole
    }
}

impl<'a> Item<'a> for Opaque<'a> {
    ghost use Rattle.der_lists.specs.Items.{opaque_item};
    ghost use Rattle.der_lists.specs.Shorter.{opaque_shorter};

    ghost reading = { opaque_item };

    ghost shorter = { opaque_shorter };

    #[tactic(auto, unfolding(crate::specs::Items::opaque_item))]
    fn take(list: &mut Cursor<'a>) -> Result<Opaque<'a>, Fault> {
        let element = list.next()?;
        Ok(Opaque {
            whole: element.whole,
        })
    }
}

impl<'a> RankedItem<'a> for Opaque<'a> {
    ghost use Rattle.der_lists.specs.Items.{opaque_front};

    ghost front = { opaque_front };

    #[tactic(auto, unfolding(crate::specs::Items::opaque_front))]
    fn element(list: &Cursor<'a>) -> Result<&'a [u8], Fault> {
        let mut ahead = list.again();
        let element = ahead.next()?;
        Ok(element.whole)
    }
}

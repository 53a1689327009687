ghost use Rattle.std.specs.Prelude.{List, Result, ℕ};
ghost use Rattle.der_core.specs.declared.fault.Fault.{Fault};
ghost use Rattle.der_core.specs.Reading.{Gives, Reads, Spot};
ghost use Rattle.der_lists.specs.Items.{IsItem};

use der_core::{Cursor, Fault};

/// What a list can consist of: values each of which is encoded in one or more octets of its own.
pub trait Item<'a>: Sized + Drop {
    /// How one of them is read from the front of a body (`specs/Items.antt`).
    ghost reading: { Spot → Result (Self × Spot) Fault };

    /// Reading an item consumes at least one octet.
    ghost shorter: { IsItem reading };

    /// Takes the item at the cursor. If there is none, the cursor may be anywhere afterwards.
    ///
    /// Faults: those of `reading`.
    fn take(list: &mut Cursor<'a>) -> Result<Self, Fault>
        // Returns the item or the fault that its reading gives.
        ensures { Reads (λ x. x) result list.new (reading list.old) };
}

/// What a list in ascending order can consist of: values each of which is encoded as one element.
pub trait RankedItem<'a>: Item<'a> {
    /// How the element is found, before its contents are read.
    ghost front: { Spot → Result (List ℕ) Fault };

    /// The whole element at the cursor.
    ///
    /// Faults: those of `front`.
    fn element(list: &Cursor<'a>) -> Result<&'a [u8], Fault>
        // Returns the element or the fault that its reading gives.
        ensures { Gives (λ x. x.now) result (front list.now) };
}

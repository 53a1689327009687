ghost use Rattle.std.specs.List.{concat};
ghost use Rattle.std.specs.Prelude.{◌≡◌, ◌<◌, ◌∷◌, ◌++◌, [], length, slice_index_or, IfOk, OnOk};

use std::alloc::{AllocError, Global};
use std::marker::Model;

/// Hash values of one length, one after another.
///
/// Contracts see this length and the values.
#[derive(Debug, Drop)]
pub struct HashValues {
    octets: Vec<u8>,
    // How many octets each has.
    size: usize,
    // How many values there are.
    count: usize,
}

impl Model for HashValues {
    ghost use Rattle.evidence_trees.specs.Pieces.{pieces, Sized, AreSized};

    ghost Value = { Sized };

    ghost view = { λ v. record { size = v.size; values = pieces v.count v.size v.octets.items } };

    ghost invariant = { λ v. AreSized v.octets.items v.size v.count };
}

impl HashValues {
    /// No values yet, and memory for this many.
    pub fn with_capacity(
        alloc: Global,
        size: usize,
        capacity: usize,
    ) -> Result<HashValues, AllocError>
        requires { 0 < size }
        ensures { IfOk result (λ v. v ≡ record { size = size; values = [] }) }
    {
        Ok(HashValues {
            octets: Vec::with_capacity(alloc, capacity.saturating_mul(size))?,
            size,
            count: 0,
        })
    }

    /// How many there are.
    pub fn len(&self) -> usize
        ensures { result ≡ length self.now.values }
    {
        self.count
    }

    /// All values, one after another.
    #[tactic(auto, using(crate::proofs::Pieces::concat_pieces))]
    pub fn bytes(&self) -> &[u8]
        ensures { result.now ≡ concat self.now.values }
    {
        self.octets.as_slice()
    }

    /// The value at this place.
    pub fn get(&self, place: usize) -> &[u8]
        requires { place < length self.now.values }
        ensures value { result.now ≡ slice_index_or self.now.values place [] }
        ensures length { length result.now ≡ self.now.size }
    {
        let octets = self.octets.as_slice();
        let start = place * self.size;
        &octets[start..start + self.size]
    }

    /// Adds a value at the end.
    pub fn push(&mut self, value: &[u8]) -> Result<(), AllocError>
        requires { length value.now ≡ self.old.size }
        ensures values { OnOk result (self.new.values ≡ self.old.values ++ value.now ∷ []) }
        ensures size { self.new.size ≡ self.old.size }
    {
        self.octets.extend_from_slice(value)?;
        self.count += 1;
        Ok(())
    }

    /// Adds the value at this place once more at the end.
    pub fn push_again(&mut self, place: usize) -> Result<(), AllocError>
        requires { place < length self.old.values }
        ensures values { OnOk result
            (self.new.values ≡ self.old.values ++ slice_index_or self.old.values place [] ∷ []) }
        ensures size { self.new.size ≡ self.old.size }
    {
        let start = place * self.size;
        self.octets.extend_from_within(start..start + self.size)?;
        self.count += 1;
        Ok(())
    }
}

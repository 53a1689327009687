//! Parts of a body that may be absent, and the last part, after whose absence the body must end.
ghost use Rattle.std.specs.Prelude.{option_map};
ghost use Rattle.der_core.specs.Reading.{Moves, maybe, last, integer_in, oid_in, bits_in, any_at};
ghost use Rattle.der_core.specs.AlgorithmReading.{algorithm_in};
ghost use Rattle.der_core.specs.LastElement.{last_element};

use crate::algorithm::AlgorithmIdentifier;
use crate::bits::Bits;
use crate::cursor::Cursor;
use crate::fault::Fault;
use crate::integer::Int;
use crate::oid::Oid;
use crate::tags::{OBJECT_IDENTIFIER, SEQUENCE};

impl<'a> Cursor<'a> {
    /// Takes the INTEGER at the cursor whose identifier is `tag`, if it is present.
    ///
    /// Faults: those of `integer_at` if that identifier is at the cursor.
    pub fn optional_integer(&mut self, tag: u8) -> Result<Option<Int<'a>>, Fault>
        // Returns the part or its fault; `None` exactly if its identifier is not here. Only a part moves the cursor.
        ensures { Moves (λ o. o) result self.old self.new (maybe tag integer_in self.old) }
    {
        if !self.has(tag) {
            return Ok(None);
        }
        let integer = self.integer_at(tag)?;
        Ok(Some(integer))
    }

    /// Takes the OBJECT IDENTIFIER at the cursor, if it is present.
    ///
    /// Faults: those of `oid` if its identifier is at the cursor.
    pub fn optional_oid(&mut self) -> Result<Option<Oid<'a>>, Fault>
        // Returns the part or its fault; `None` exactly if its identifier is not here. Only a part moves the cursor.
        ensures { Moves (λ o. o) result self.old self.new (maybe 0x06 oid_in self.old) }
    {
        if !self.has(OBJECT_IDENTIFIER) {
            return Ok(None);
        }
        let oid = self.oid()?;
        Ok(Some(oid))
    }

    /// Takes the BIT STRING at the cursor whose identifier is `tag`, if it is present.
    ///
    /// Faults: those of `bits` if that identifier is at the cursor.
    pub fn optional_bits(&mut self, tag: u8) -> Result<Option<Bits<'a>>, Fault>
        // Returns the part or its fault; `None` exactly if its identifier is not here. Only a part moves the cursor.
        ensures { Moves (λ o. o) result self.old self.new (maybe tag bits_in self.old) }
    {
        if !self.has(tag) {
            return Ok(None);
        }
        let bits = self.bits(tag)?;
        Ok(Some(bits))
    }

    /// Takes the AlgorithmIdentifier at the cursor, if it is present.
    ///
    /// Faults: those of `algorithm` if its identifier is at the cursor.
    pub fn optional_algorithm(&mut self) -> Result<Option<AlgorithmIdentifier<'a>>, Fault>
        // Returns the part or its fault; `None` exactly if its identifier is not here. Only a part moves the cursor.
        ensures { Moves (λ o. o) result self.old self.new (maybe 0x30 algorithm_in self.old) }
    {
        if !self.has(SEQUENCE) {
            return Ok(None);
        }
        let algorithm = self.algorithm()?;
        Ok(Some(algorithm))
    }

    /// Takes the INTEGER whose identifier is `tag`, the last part of the body; if it is absent, the body must end here.
    ///
    /// Faults: those of `integer_at` if that identifier is at the cursor, else those of `none`.
    pub fn last_integer(&mut self, tag: u8) -> Result<Option<Int<'a>>, Fault>
        // Returns the part or its fault; if its identifier is not here, `None` at the end, and a fault elsewhere.
        ensures { Moves (λ o. o) result self.old self.new (last tag integer_in self.old) }
    {
        if !self.has(tag) {
            self.none()?;
            return Ok(None);
        }
        let last = self.integer_at(tag)?;
        Ok(Some(last))
    }

    /// Takes the BIT STRING whose identifier is `tag`, the last part of the body; if it is absent, the body must end
    /// here.
    ///
    /// Faults: those of `bits` if that identifier is at the cursor, else those of `none`.
    pub fn last_bits(&mut self, tag: u8) -> Result<Option<Bits<'a>>, Fault>
        // Returns the part or its fault; if its identifier is not here, `None` at the end, and a fault elsewhere.
        ensures { Moves (λ o. o) result self.old self.new (last tag bits_in self.old) }
    {
        if !self.has(tag) {
            self.none()?;
            return Ok(None);
        }
        let last = self.bits(tag)?;
        Ok(Some(last))
    }

    /// Takes the element whose identifier is `tag`, the last part of the body, and returns its contents; if it is
    /// absent, the body must end here.
    ///
    /// Faults: those of `contents` if that identifier is at the cursor, else those of `none`.
    pub fn last_contents(&mut self, tag: u8) -> Result<Option<&'a [u8]>, Fault>
        // Returns the part or its fault; if its identifier is not here, `None` at the end, and a fault elsewhere.
        ensures { Moves (λ o. option_map (λ b. b.now) o) result self.old self.new (last tag any_at self.old) }
    {
        if !self.has(tag) {
            self.none()?;
            return Ok(None);
        }
        let (contents, _) = self.contents(tag)?;
        Ok(Some(contents))
    }

    /// Takes the element whose identifier is `tag`, the last part of the body, and returns it whole; if it is absent,
    /// the body must end here.
    ///
    /// Faults: those of `element` if that identifier is at the cursor, else those of `none`.
    pub fn last_element(&mut self, tag: u8) -> Result<Option<&'a [u8]>, Fault>
        // Returns the part or its fault; if its identifier is not here, `None` at the end, and a fault elsewhere.
        ensures { Moves (λ o. option_map (λ x. x.now) o) result self.old self.new (last_element tag self.old) }
    {
        if !self.has(tag) {
            self.none()?;
            return Ok(None);
        }
        let whole = self.element(tag)?;
        Ok(Some(whole))
    }
}

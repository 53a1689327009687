ghost use Rattle.std.specs.Prelude.{◌∷◌, [], option_map};
ghost use Rattle.der_core.specs.Reading.{Gives, Moves, spot, integer_in, bits_in, version_in, oid_in, opaque_at};
ghost use Rattle.der_core.specs.Reading.{element_at, within, any_at};
ghost use Rattle.der_core.specs.Flags.{flag_at};

use crate::bits::Bits;
use crate::cursor::Cursor;
use crate::fault::{Fault, Kind};
use crate::flag::Flag;
use crate::integer::Int;
use crate::octets::is_one_of;
use crate::oid::Oid;
use crate::tags::{BOOLEAN, INTEGER, OBJECT_IDENTIFIER, OCTET_STRING};

/// The version that these contents of an INTEGER encode, which must be one of `allowed`, numbers from 0 to 127 (X.690
/// 8.3); `at` is their position.
///
/// Faults, at `at`: `Integer` if they are no contents of an INTEGER, else `Value` if it is another number.
pub fn version_of(body: &[u8], at: u64, allowed: &[u8]) -> Result<u8, Fault>
    // Returns the version, or the fault, that its reading gives.
    ensures { Gives (λ v. v ∷ []) result (version_in allowed.now (spot at body.now)) }
{
    let _ = Int::read(body, at)?;
    match body {
        [version] if is_one_of(*version, allowed) => Ok(*version),
        _ => Err(Fault::new(Kind::Value, at)),
    }
}

impl<'a> Cursor<'a> {
    /// Takes the INTEGER at the cursor.
    ///
    /// Faults: those of `expect`, and `Integer` at its contents.
    pub fn integer(&mut self) -> Result<Int<'a>, Fault>
        // Returns the value or the fault that its reading gives; after a fault the cursor has not moved.
        ensures { Moves (λ i. i) result self.old self.new (within 0x02 integer_in self.old) }
    {
        self.integer_at(INTEGER)
    }

    /// Takes the INTEGER at the cursor, whose identifier must be `tag`.
    ///
    /// Faults: those of `expect`, and `Integer` at its contents.
    pub fn integer_at(&mut self, tag: u8) -> Result<Int<'a>, Fault>
        // Returns the value or the fault that its reading gives; after a fault the cursor has not moved.
        ensures { Moves (λ i. i) result self.old self.new (within tag integer_in self.old) }
    {
        let mut ahead = self.again();
        let (body, at) = ahead.contents(tag)?;
        let integer = Int::read(body, at)?;
        *self = ahead;
        Ok(integer)
    }

    /// Takes the version at the cursor, an INTEGER that must be one of `allowed`, numbers from 0 to 127.
    ///
    /// Faults: those of `integer`, and `Value` at its contents if it is another number.
    pub fn version(&mut self, allowed: &[u8]) -> Result<u8, Fault>
        // Returns the value or the fault that its reading gives; after a fault the cursor has not moved.
        ensures { Moves (λ v. v ∷ []) result self.old self.new (within 0x02 (version_in allowed.now) self.old) }
    {
        let mut ahead = self.again();
        let (body, at) = ahead.contents(INTEGER)?;
        let version = version_of(body, at, allowed)?;
        *self = ahead;
        Ok(version)
    }

    /// Takes the OBJECT IDENTIFIER at the cursor.
    ///
    /// Faults: those of `expect`, and `Oid` at its contents.
    #[inline]
    pub fn oid(&mut self) -> Result<Oid<'a>, Fault>
        // Returns the value or the fault that its reading gives; after a fault the cursor has not moved.
        ensures { Moves (λ i. i) result self.old self.new (within 0x06 oid_in self.old) }
    {
        let mut ahead = self.again();
        let (body, at) = ahead.contents(OBJECT_IDENTIFIER)?;
        let oid = Oid::read(body, at)?;
        *self = ahead;
        Ok(oid)
    }

    /// Takes the OCTET STRING at the cursor and returns its contents.
    ///
    /// Faults: those of `expect`.
    pub fn octet_string(&mut self) -> Result<&'a [u8], Fault>
        // Returns the value or the fault that its reading gives; after a fault the cursor has not moved.
        ensures { Moves (λ i. i.now) result self.old self.new (within 0x04 any_at self.old) }
    {
        let (body, _) = self.contents(OCTET_STRING)?;
        Ok(body)
    }

    /// Takes the BIT STRING at the cursor, whose identifier must be `tag`.
    ///
    /// Faults: those of `expect`, and `Bits` at its contents.
    pub fn bits(&mut self, tag: u8) -> Result<Bits<'a>, Fault>
        // Returns the value or the fault that its reading gives; after a fault the cursor has not moved.
        ensures { Moves (λ b. b) result self.old self.new (within tag bits_in self.old) }
    {
        let mut ahead = self.again();
        let (body, at) = ahead.contents(tag)?;
        let bits = Bits::read(body, at)?;
        *self = ahead;
        Ok(bits)
    }

    /// Takes the element at the cursor, which must have the identifier `tag`, and returns the whole element.
    ///
    /// Faults: those of `expect`.
    #[tactic(auto, unfolding(crate::specs::Reading::element_at))]
    pub fn element(&mut self, tag: u8) -> Result<&'a [u8], Fault>
        // Returns the value or the fault that its reading gives; after a fault the cursor has not moved.
        ensures { Moves (λ x. x.now) result self.old self.new (element_at tag self.old) }
    {
        let element = self.expect(tag)?;
        Ok(element.whole)
    }

    /// Takes the BOOLEAN with the default FALSE at the cursor, if there is one.
    ///
    /// Faults: those of `optional`, and `Boolean` at its contents.
    #[tactic(auto, unfolding(crate::specs::Flags::flag_at))]
    pub fn flag(&mut self) -> Result<Flag, Fault>
        // Returns the value or the fault that its reading gives; after a fault the cursor has not moved.
        ensures { Moves (λ i. i) result self.old self.new (flag_at self.old) }
    {
        if !self.has(BOOLEAN) {
            return Ok(Flag::Absent);
        }
        let mut ahead = self.again();
        let (body, at) = ahead.contents(BOOLEAN)?;
        let flag = match body {
            [0x00] => Flag::False,
            [0xff] => Flag::True,
            _ => {
                return Err(Fault::new(Kind::Boolean, at));
            }
        };
        *self = ahead;
        Ok(flag)
    }

    /// Takes one more element of any kind, unless the body ends here, and returns the whole element.
    ///
    /// Faults: those of `next`, except at the end of the body.
    #[tactic(auto, unfolding(crate::specs::Reading::opaque_at))]
    pub fn opaque(&mut self) -> Result<Option<&'a [u8]>, Fault>
        // Returns the value or the fault that its reading gives; after a fault the cursor has not moved.
        ensures { Moves (λ o. option_map (λ x. x.now) o) result self.old self.new (opaque_at self.old) }
    {
        if self.is_empty() {
            return Ok(None);
        }
        let element = self.next()?;
        Ok(Some(element.whole))
    }
}

ghost use Rattle.std.specs.Prelude.{◌≡◌, option_map};
ghost use Rattle.der_core.specs.Reading.{Gives, Moves, within};
ghost use Rattle.der_core.specs.AlgorithmReading.{algorithm_in};
ghost use Rattle.der_core.specs.Values.{AlgorithmValue, GoodAlgorithm, algorithm_element};
ghost use Rattle.der_core.specs.AlgorithmFields.{fields_value};

use crate::cursor::Cursor;
use crate::fault::Fault;
use crate::oid::Oid;
use crate::tags::SEQUENCE;
use std::marker::Model;

// The parts of an AlgorithmIdentifier.
#[derive(Debug, Drop)]
struct Fields<'a> {
    oid: Oid<'a>,
    parameters: Option<&'a [u8]>,
}

/// An AlgorithmIdentifier (RFC 5280 4.1.1.2): an object identifier and parameters of any kind, as a view of the
/// element.
///
/// Contracts see an `AlgorithmValue` (`specs/Values.antt`): the contents of the object identifier, and the parameters,
/// if any, as a whole element.
#[derive(Debug, Drop)]
pub struct AlgorithmIdentifier<'a> {
    whole: &'a [u8],
    fields: Fields<'a>,
}

impl<'a> Model for AlgorithmIdentifier<'a> {
    ghost use Rattle.std.specs.Prelude.{◌≡◌};
    ghost use Rattle.der_core.specs.Values.{AlgorithmValue, GoodAlgorithm, algorithm_element};
    ghost use Rattle.der_core.specs.AlgorithmFields.{fields_value};

    ghost Value = { AlgorithmValue };

    ghost view = { λ a. fields_value a.fields };

    ghost invariant = { λ a. (a.whole.now ≡ algorithm_element (fields_value a.fields))
        × GoodAlgorithm (fields_value a.fields) };
}

// AlgorithmIdentifier ::= SEQUENCE { algorithm OBJECT IDENTIFIER, parameters ANY DEFINED BY algorithm OPTIONAL }
#[tactic(auto, unfolding(crate::specs::AlgorithmReading::algorithm_in))]
fn fields_of<'a>(mut parts: Cursor<'a>) -> Result<Fields<'a>, Fault>
    ensures { Gives fields_value result (algorithm_in parts.entry) }
{
    let oid = parts.oid()?;
    let parameters = parts.opaque()?;
    parts.end()?;
    Ok(Fields { oid, parameters })
}

impl<'a> AlgorithmIdentifier<'a> {
    /// The whole element.
    pub fn whole(&self) -> &'a [u8]
        // Returns the element that encodes the value.
        ensures octets { result.now ≡ algorithm_element self.now }
        // The value is a good AlgorithmIdentifier.
        ensures good { GoodAlgorithm self.now }
    {
        self.whole
    }

    /// The object identifier.
    pub fn oid(&self) -> &Oid<'a>
        ensures { result.now ≡ self.now.oid }
    {
        &self.fields.oid
    }

    /// The parameters, a whole element.
    pub fn parameters(&self) -> Option<&'a [u8]>
        ensures { option_map (λ x. x.now) result ≡ self.now.parameters }
    {
        self.fields.parameters
    }
}

impl<'a> Cursor<'a> {
    /// Takes the AlgorithmIdentifier at the cursor.
    ///
    /// Faults: those of `expect` at it, of `oid` at its object identifier and of `next` at its parameters, and
    /// `Trailing` after these.
    pub fn algorithm(&mut self) -> Result<AlgorithmIdentifier<'a>, Fault>
        // Returns the value or the fault that its reading gives; after a fault the cursor has not moved.
        ensures { Moves (λ a. a) result self.old self.new (within 0x30 algorithm_in self.old) }
    {
        let mut ahead = self.again();
        let (element, inside) = ahead.open(SEQUENCE)?;
        let fields = fields_of(inside)?;
        *self = ahead;
        Ok(AlgorithmIdentifier {
            whole: element.whole,
            fields,
        })
    }
}

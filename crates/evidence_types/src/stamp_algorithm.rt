ghost use Rattle.std.specs.Prelude.{◌≡◌, option_map};
ghost use Rattle.der_core.specs.Reading.{Gives};
ghost use Rattle.der_core.specs.AlgorithmReading.{algorithm_in};

use der_core::{Cursor, Fault, Oid};
use std::marker::Model;

/// The digest algorithm of an archive time-stamp (RFC 4998 4.1), an AlgorithmIdentifier with an identifier octet of its
/// own, as a view.
///
/// Contracts see an `AlgorithmValue` (`der_core/specs/Values.antt`).
#[derive(Debug, Drop)]
pub struct StampAlgorithm<'a> {
    oid: Oid<'a>,
    parameters: Option<&'a [u8]>,
}

impl<'a> Model for StampAlgorithm<'a> {
    ghost use Rattle.std.specs.Prelude.{option_map};
    ghost use Rattle.der_core.specs.Values.{AlgorithmValue};

    ghost Value = { AlgorithmValue };

    ghost view = { λ a. record { oid = a.oid; parameters = option_map (λ x. x.now) a.parameters } };
}

impl<'a> StampAlgorithm<'a> {
    // AlgorithmIdentifier ::= SEQUENCE { algorithm OBJECT IDENTIFIER, parameters ANY DEFINED BY algorithm OPTIONAL }
    #[tactic(auto, unfolding(der_core::specs::AlgorithmReading::algorithm_in))]
    pub(crate) fn fields_of(mut parts: Cursor<'a>) -> Result<StampAlgorithm<'a>, Fault>
        ensures { Gives (λ a. a) result (algorithm_in parts.entry) }
    {
        let oid = parts.oid()?;
        let parameters = parts.opaque()?;
        parts.end()?;
        Ok(StampAlgorithm { oid, parameters })
    }

    /// The object identifier.
    pub fn oid(&self) -> &Oid<'a>
        ensures { result.now ≡ self.now.oid }
    {
        &self.oid
    }

    /// The parameters, a whole element.
    pub fn parameters(&self) -> Option<&'a [u8]>
        ensures { option_map (λ x. x.now) result ≡ self.now.parameters }
    {
        self.parameters
    }
}

ghost use Rattle.std.specs.Prelude.{◌≡◌};
ghost use Rattle.der_core.specs.Reading.{Gives};
ghost use Rattle.tsp_types.specs.ImprintReading.{imprint_in};

use der_core::{AlgorithmIdentifier, Cursor, Fault};
use std::marker::Model;

/// A message imprint (RFC 3161 2.4.1): a hash algorithm and the hash of what is to be stamped, as a view.
#[derive(Debug, Drop)]
pub(crate) struct Imprint<'a> {
    algorithm: AlgorithmIdentifier<'a>,
    digest: &'a [u8],
}

impl<'a> Model for Imprint<'a> {
    ghost use Rattle.tsp_types.specs.ImprintValue.{ImprintValue};

    ghost Value = { ImprintValue };

    ghost view = { λ i. record { algorithm = i.algorithm; digest = i.digest.now } };
}

impl<'a> Imprint<'a> {
    // MessageImprint ::= SEQUENCE { hashAlgorithm AlgorithmIdentifier, hashedMessage OCTET STRING }
    #[tactic(auto, unfolding(crate::specs::ImprintReading::imprint_in))]
    pub(crate) fn fields_of(mut parts: Cursor<'a>) -> Result<Imprint<'a>, Fault>
        ensures { Gives (λ i. i) result (imprint_in parts.entry) }
    {
        let algorithm = parts.algorithm()?;
        let digest = parts.octet_string()?;
        parts.end()?;
        Ok(Imprint { algorithm, digest })
    }

    pub(crate) fn algorithm(&self) -> &AlgorithmIdentifier<'a>
        ensures { result.now ≡ self.now.algorithm }
    {
        &self.algorithm
    }

    pub(crate) fn digest(&self) -> &'a [u8]
        ensures { result.now ≡ self.now.digest }
    {
        self.digest
    }
}

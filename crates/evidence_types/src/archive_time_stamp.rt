ghost use Rattle.std.specs.Prelude.{◌≡◌};
ghost use Rattle.std.specs.Option.{option_copied};
ghost use Rattle.der_core.specs.Reading.{Gives};
ghost use Rattle.evidence_types.specs.StampReading.{stamp_in};

use crate::evidence_attributes::optional_set;
use crate::hash_lists::HashLists;
use crate::stamp_algorithm::StampAlgorithm;
use cms_types::Attributes;
use der_core::tags::SEQUENCE;
use der_core::{Cursor, Fault};
use der_lists::Item;
use std::marker::Model;

/// The identifier octets of the parts that may be absent, `[0]`, `[1]` and `[2]`, each IMPLICIT (RFC 4998 4.1).
const ALGORITHM: u8 = 0xa0;

const ATTRIBUTES: u8 = 0xa1;

const LISTS: u8 = 0xa2;

/// An archive time-stamp (RFC 4998 4.1), as a view.
///
/// Contracts see a `StampValue` (`specs/StampValue.antt`).
#[derive(Debug, Drop)]
pub struct ArchiveTimeStamp<'a> {
    algorithm: Option<StampAlgorithm<'a>>,
    attributes: Option<Attributes<'a>>,
    lists: Option<HashLists<'a>>,
    stamp: &'a [u8],
}

impl<'a> Model for ArchiveTimeStamp<'a> {
    ghost use Rattle.evidence_types.specs.StampValue.{StampValue};

    ghost Value = { StampValue };

    ghost view = { λ s. record {
      algorithm = s.algorithm;
      attributes = s.attributes;
      lists = s.lists;
      stamp = s.stamp.now;
    } };
}

// ArchiveTimeStamp ::= SEQUENCE { digestAlgorithm [0] AlgorithmIdentifier OPTIONAL, attributes [1] Attributes OPTIONAL,
//   reducedHashtree [2] SEQUENCE OF PartialHashtree OPTIONAL, timeStamp ContentInfo }
#[tactic(auto, unfolding(crate::specs::StampReading::stamp_in))]
fn fields_of<'a>(mut parts: Cursor<'a>) -> Result<ArchiveTimeStamp<'a>, Fault>
    ensures { Gives (λ s. s) result (stamp_in parts.entry) }
{
    let algorithm = if parts.has(ALGORITHM) {
        Some(StampAlgorithm::fields_of(parts.enter(ALGORITHM)?)?)
    } else {
        None
    };
    let attributes = optional_set(&mut parts, ATTRIBUTES)?;
    let lists = HashLists::optional(&mut parts, LISTS)?;
    let stamp = parts.element(SEQUENCE)?;
    parts.end()?;
    Ok(ArchiveTimeStamp {
        algorithm,
        attributes,
        lists,
        stamp,
    })
}

impl<'a> ArchiveTimeStamp<'a> {
    /// The digest algorithm (`digestAlgorithm`). `None` if the field is absent.
    pub fn algorithm(&self) -> Option<&StampAlgorithm<'a>>
        ensures { option_copied result ≡ self.now.algorithm }
    {
        self.algorithm.as_ref()
    }

    /// The attributes. `None` if the field is absent.
    pub fn attributes(&self) -> Option<&Attributes<'a>>
        ensures { option_copied result ≡ self.now.attributes }
    {
        self.attributes.as_ref()
    }

    /// The lists of hash values (`reducedHashtree`), from the one with the hash values of the data on. `None` if the
    /// field is absent.
    pub fn lists(&self) -> Option<&HashLists<'a>>
        ensures { option_copied result ≡ self.now.lists }
    {
        self.lists.as_ref()
    }

    /// The time-stamp (`timeStamp`), as a whole element. Its contents are not read.
    pub fn stamp(&self) -> &'a [u8]
        ensures { result.now ≡ self.now.stamp }
    {
        self.stamp
    }
}

impl<'a> Item<'a> for ArchiveTimeStamp<'a> {
    ghost use Rattle.der_core.specs.Reading.{within};
    ghost use Rattle.der_lists.specs.Shorter.{within_shorter};
    ghost use Rattle.evidence_types.specs.StampReading.{stamp_in};

    ghost reading = { within 0x30 stamp_in };

    ghost shorter = { within_shorter 0x30 stamp_in };

    fn take(list: &mut Cursor<'a>) -> Result<ArchiveTimeStamp<'a>, Fault> {
        fields_of(list.enter(SEQUENCE)?)
    }
}

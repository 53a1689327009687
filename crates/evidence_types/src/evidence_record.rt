ghost use Rattle.std.specs.Prelude.{◌≡◌, ◌≢◌, IfOk, IfErr, Ok, Err};
ghost use Rattle.std.specs.Option.{option_copied};
ghost use Rattle.devices.specs.Device.{Wrote};
ghost use Rattle.der_core.specs.Reading.{Gives};
ghost use Rattle.der_core.specs.ReadFaults.{IsReadFault};
ghost use Rattle.der_core.specs.Grammar.{file};
ghost use Rattle.evidence_types.specs.EvidenceTable.{evidence_record};
ghost use Rattle.evidence_types.specs.EvidenceValue.{EvidenceValue, EncodesEvidence, encoding};
ghost use Rattle.evidence_types.specs.EvidenceReading.{evidence_in, evidence_at};
ghost use Rattle.evidence_types.specs.EvidenceFields.{evidence_value};

use crate::chains::Chains;
use crate::encryption::Encryption;
use crate::evidence_attributes::optional_list;
use cms_types::Attributes;
use der_core::tags::SEQUENCE;
use der_core::{Cursor, Fault, ReadFault};
use der_lists::AlgorithmIdentifiers;
use devices::{Sink, SinkFault, put_all};
use std::marker::Model;

/// The only version of an evidence record (RFC 4998 3.1).
const VERSION: [u8; 1] = [1];

/// The identifier octets of the parts that may be absent, `[0]` and `[1]`, both IMPLICIT (RFC 4998 3.1).
const CRYPTO_INFOS: u8 = 0xa0;

const ENCRYPTION: u8 = 0xa1;

// The parts of an evidence record.
#[derive(Debug, Drop)]
struct RecordFields<'a> {
    algorithms: AlgorithmIdentifiers<'a>,
    crypto_infos: Option<Attributes<'a>>,
    encryption: Option<Encryption<'a>>,
    chains: Chains<'a>,
}

/// An evidence record (RFC 4998 3.1), as a view of its octets.
///
/// Contracts see an `EvidenceValue` (`specs/EvidenceValue.antt`).
#[derive(Debug, Drop)]
pub struct EvidenceRecord<'a> {
    whole: &'a [u8],
    fields: RecordFields<'a>,
}

impl<'a> Model for EvidenceRecord<'a> {
    ghost use Rattle.evidence_types.specs.EvidenceValue.{EvidenceValue, EncodesEvidence};
    ghost use Rattle.evidence_types.specs.EvidenceFields.{evidence_value};

    ghost Value = { EvidenceValue };

    ghost view = { λ r. evidence_value r.fields };

    ghost invariant = { λ r. EncodesEvidence r.whole.now (evidence_value r.fields) };
}

// EvidenceRecord ::= SEQUENCE { version INTEGER { v1(1) }, digestAlgorithms SEQUENCE OF AlgorithmIdentifier,
//   cryptoInfos [0] CryptoInfos OPTIONAL, encryptionInfo [1] EncryptionInfo OPTIONAL,
//   archiveTimeStampSequence ArchiveTimeStampSequence }
#[tactic(auto, unfolding(crate::specs::EvidenceReading::evidence_in))]
fn fields_of<'a>(mut parts: Cursor<'a>) -> Result<RecordFields<'a>, Fault>
    ensures { Gives evidence_value result (evidence_in parts.entry) }
{
    let _ = parts.version(&VERSION)?;
    let algorithms = AlgorithmIdentifiers::read(parts.enter(SEQUENCE)?)?;
    let crypto_infos = optional_list(&mut parts, CRYPTO_INFOS)?;
    let encryption = if parts.has(ENCRYPTION) {
        Some(Encryption::fields_of(parts.enter(ENCRYPTION)?)?)
    } else {
        None
    };
    let chains = Chains::read(&mut parts)?;
    parts.end()?;
    Ok(RecordFields {
        algorithms,
        crypto_infos,
        encryption,
        chains,
    })
}

#[tactic(auto, unfolding(crate::specs::EvidenceReading::evidence_at))]
fn whole_of<'a>(bytes: &'a [u8]) -> Result<RecordFields<'a>, Fault>
    ensures { Gives evidence_value result (evidence_at bytes.now) }
{
    let mut input = Cursor::new(bytes, 0);
    let fields = fields_of(input.enter(SEQUENCE)?)?;
    input.end()?;
    Ok(fields)
}

impl<'a> EvidenceRecord<'a> {
    /// The evidence record that all of `bytes` encode. It allocates nothing.
    ///
    /// Errors: `Malformed`, with a fault that the octets have, if they don't encode one.
    pub fn read(bytes: &'a [u8]) -> Result<EvidenceRecord<'a>, ReadFault>
        // A value that is read is encoded by the octets.
        ensures found { IfOk result (λ v. EncodesEvidence bytes.now v) }
        // A value that the octets encode is read.
        ensures only { (v : EvidenceValue) → EncodesEvidence bytes.now v → result ≡ Ok v }
        // A fault that is reported is one that the octets have.
        ensures fault { IfErr result (IsReadFault (file evidence_record) bytes.now) }
        // It never reports a lack of memory.
        ensures no_memory { result ≢ Err ReadFault.OutOfMemory }
    {
        let fields = whole_of(bytes)?;
        Ok(EvidenceRecord {
            whole: bytes,
            fields,
        })
    }

    /// The digest algorithms (`digestAlgorithms`), in the order in which they occur. Nothing shows that all of those
    /// that are used are among them.
    pub fn algorithms(&self) -> &AlgorithmIdentifiers<'a>
        ensures { result.now ≡ self.now.algorithms }
    {
        &self.fields.algorithms
    }

    /// The attributes of the record (`cryptoInfos`). `None` if the field is absent.
    pub fn crypto_infos(&self) -> Option<&Attributes<'a>>
        ensures { option_copied result ≡ self.now.crypto_infos }
    {
        self.fields.crypto_infos.as_ref()
    }

    /// How the data are encrypted (`encryptionInfo`). `None` if the field is absent.
    pub fn encryption(&self) -> Option<&Encryption<'a>>
        ensures { option_copied result ≡ self.now.encryption }
    {
        self.fields.encryption.as_ref()
    }

    /// The chains of archive time-stamps (`archiveTimeStampSequence`), in the order in which they occur.
    pub fn chains(&self) -> &Chains<'a>
        ensures { result.now ≡ self.now.chains }
    {
        &self.fields.chains
    }

    /// Writes the octets that encode the evidence record.
    ///
    /// Errors: `SinkFault` if the sink fails; then only a beginning of the octets was written.
    pub fn write<S: Sink>(&self, out: &mut S) -> Result<(), SinkFault>
        // The whole encoding, or after a fault a beginning of it; the count of failures rose exactly if there was a
        // fault.
        ensures wrote { Wrote result (S.tells out.old) (S.taken out.old) (S.taken out.new) (S.failures out.old)
            (S.failures out.new) (encoding self.now) }
        // If it was known what the sink took, it still is.
        ensures telling { S.tells out.old → S.tells out.new }
    {
        put_all(out, self.whole)
    }
}

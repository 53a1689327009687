ghost use Rattle.std.specs.Prelude.{◌≡◌, ◌≢◌, IfOk, IfErr, Ok, Err, option_map};
ghost use Rattle.std.specs.Option.{option_copied};
ghost use Rattle.devices.specs.Device.{Wrote};
ghost use Rattle.der_core.specs.Reading.{Gives};
ghost use Rattle.der_core.specs.ReadFaults.{IsReadFault};
ghost use Rattle.der_core.specs.Grammar.{file};
ghost use Rattle.der_grammar.specs.Table.{tst_info};
ghost use Rattle.der_time.specs.Moments.{generalized_moment};
ghost use Rattle.tsp_types.specs.TstValue.{TstValue, EncodesTst, encoding};
ghost use Rattle.tsp_types.specs.TstReading.{tst_in, tst_at};
ghost use Rattle.tsp_types.specs.TstFields.{tst_value};

use crate::accuracy::Accuracy;
use crate::imprint::Imprint;
use cert_types::Extensions;
use der_core::tags::{INTEGER, SEQUENCE};
use der_core::{AlgorithmIdentifier, Cursor, Fault, Flag, Int, Oid, ReadFault};
use der_lists::Opaque;
use der_time::{GeneralizedTime, Moment};
use devices::{Sink, SinkFault, put_all};
use std::marker::Model;

/// The only version of a TSTInfo (RFC 3161 2.4.2).
const VERSION: [u8; 1] = [1];

/// The identifier octets of the authority's name, `[0]` around a CHOICE and thus EXPLICIT, and of the extensions, `[1]
/// IMPLICIT` (RFC 3161 2.4.2).
const TSA: u8 = 0xa0;

const EXTENSIONS: u8 = 0xa1;

// The parts of a TSTInfo.
#[derive(Debug, Drop)]
struct TstFields<'a> {
    policy: Oid<'a>,
    imprint: Imprint<'a>,
    serial: Int<'a>,
    time: GeneralizedTime<'a>,
    accuracy: Option<Accuracy<'a>>,
    ordering: Flag,
    nonce: Option<Int<'a>>,
    tsa: Option<Opaque<'a>>,
    extensions: Option<Extensions<'a>>,
}

/// The content of a time-stamp token (RFC 3161 2.4.2), as a view of its octets.
///
/// Contracts see a `TstValue` (`specs/TstValue.antt`).
#[derive(Debug, Drop)]
pub struct TstInfo<'a> {
    whole: &'a [u8],
    fields: TstFields<'a>,
}

impl<'a> Model for TstInfo<'a> {
    ghost use Rattle.tsp_types.specs.TstValue.{TstValue, EncodesTst};
    ghost use Rattle.tsp_types.specs.TstFields.{tst_value};

    ghost Value = { TstValue };

    ghost view = { λ r. tst_value r.fields };

    ghost invariant = { λ r. EncodesTst r.whole.now (tst_value r.fields) };
}

// TSTInfo ::= SEQUENCE { version INTEGER { v1(1) }, policy TSAPolicyId, messageImprint MessageImprint,
//   serialNumber INTEGER,
//   genTime GeneralizedTime, accuracy Accuracy OPTIONAL, ordering BOOLEAN DEFAULT FALSE, nonce INTEGER OPTIONAL,
//   tsa [0] GeneralName OPTIONAL, extensions [1] IMPLICIT Extensions OPTIONAL }
#[tactic(auto, unfolding(crate::specs::TstReading::tst_in))]
fn fields_of<'a>(mut parts: Cursor<'a>) -> Result<TstFields<'a>, Fault>
    ensures { Gives tst_value result (tst_in parts.entry) }
{
    let _ = parts.version(&VERSION)?;
    let policy = parts.oid()?;
    let imprint = Imprint::fields_of(parts.enter(SEQUENCE)?)?;
    let serial = parts.integer()?;
    let time = GeneralizedTime::read(&mut parts)?;
    let accuracy = if parts.has(SEQUENCE) {
        Some(Accuracy::fields_of(parts.enter(SEQUENCE)?)?)
    } else {
        None
    };
    let ordering = parts.flag()?;
    let nonce = parts.optional_integer(INTEGER)?;
    let tsa = if parts.has(TSA) {
        Some(Opaque::read(parts.enter(TSA)?)?)
    } else {
        None
    };
    let extensions = if parts.has(EXTENSIONS) {
        Some(Extensions::read(parts.enter(EXTENSIONS)?)?)
    } else {
        parts.none()?;
        None
    };
    parts.end()?;
    Ok(TstFields {
        policy,
        imprint,
        serial,
        time,
        accuracy,
        ordering,
        nonce,
        tsa,
        extensions,
    })
}

#[tactic(auto, unfolding(crate::specs::TstReading::tst_at))]
fn whole_of<'a>(bytes: &'a [u8]) -> Result<TstFields<'a>, Fault>
    ensures { Gives tst_value result (tst_at bytes.now) }
{
    let mut input = Cursor::new(bytes, 0);
    let fields = fields_of(input.enter(SEQUENCE)?)?;
    input.end()?;
    Ok(fields)
}

impl<'a> TstInfo<'a> {
    /// The TSTInfo that all of `bytes` encode. It allocates nothing.
    ///
    /// Errors: `Malformed`, with a fault that the octets have, if they don't encode one.
    pub fn read(bytes: &'a [u8]) -> Result<TstInfo<'a>, ReadFault>
        // A value that is read is encoded by the octets.
        ensures found { IfOk result (λ v. EncodesTst bytes.now v) }
        // A value that the octets encode is read.
        ensures only { (v : TstValue) → EncodesTst bytes.now v → result ≡ Ok v }
        // A fault that is reported is one that the octets have.
        ensures fault { IfErr result (IsReadFault (file tst_info) bytes.now) }
        // It never reports a lack of memory.
        ensures no_memory { result ≢ Err ReadFault.OutOfMemory }
    {
        let fields = whole_of(bytes)?;
        Ok(TstInfo {
            whole: bytes,
            fields,
        })
    }

    /// The policy under which the stamp was made.
    pub fn policy(&self) -> &Oid<'a>
        ensures { result.now ≡ self.now.policy }
    {
        &self.fields.policy
    }

    /// The hash algorithm of the imprint.
    pub fn algorithm(&self) -> &AlgorithmIdentifier<'a>
        ensures { result.now ≡ self.now.imprint.algorithm }
    {
        self.fields.imprint.algorithm()
    }

    /// The hash of what was stamped: the contents of the imprint's OCTET STRING.
    pub fn imprint(&self) -> &'a [u8]
        ensures { result.now ≡ self.now.imprint.digest }
    {
        self.fields.imprint.digest()
    }

    /// The number that the authority gave to the stamp.
    pub fn serial(&self) -> &Int<'a>
        ensures { result.now ≡ self.now.serial }
    {
        &self.fields.serial
    }

    /// When the stamp was made: the moment that genTime names.
    pub fn time(&self) -> Moment
        ensures { result ≡ generalized_moment self.now.time }
    {
        self.fields.time.moment()
    }

    /// How far the time may be off.
    pub fn accuracy(&self) -> Option<&Accuracy<'a>>
        ensures { option_copied result ≡ self.now.accuracy }
    {
        self.fields.accuracy.as_ref()
    }

    /// Whether stamps of the authority may be ordered by their times alone, as it is encoded.
    pub fn ordering(&self) -> Flag
        ensures { result ≡ self.now.ordering }
    {
        self.fields.ordering
    }

    /// The number of the request, which the stamp repeats.
    pub fn nonce(&self) -> Option<&Int<'a>>
        ensures { option_copied result ≡ self.now.nonce }
    {
        self.fields.nonce.as_ref()
    }

    /// A name of the authority: the whole element that `[0]` holds.
    pub fn tsa(&self) -> Option<&'a [u8]>
        ensures { option_map (λ x. x.now) result ≡ self.now.tsa }
    {
        match &self.fields.tsa {
            Some(name) => Some(name.whole()),
            None => None,
        }
    }

    /// The extensions (RFC 3161 2.4.2). `None` if the field is absent.
    pub fn extensions(&self) -> Option<&Extensions<'a>>
        ensures { option_copied result ≡ self.now.extensions }
    {
        self.fields.extensions.as_ref()
    }

    /// Writes the octets that encode the TSTInfo.
    ///
    /// Errors: `SinkFault` if the sink fails; then only a beginning of the octets was written.
    pub fn write<S: Sink>(&self, out: &mut S) -> Result<(), SinkFault>
        // The whole encoding, or after a fault a beginning of it; the count of failures rose exactly if there was a
        // fault.
        ensures wrote { Wrote result (S.tells out.old) (S.taken out.old) (S.taken out.new) (S.failures out.old)
            (S.failures out.new) (encoding self.now) }
        // If it was known what the sink took, it still is.
        ensures telling { S.tells out.old → S.tells out.new }
    {
        put_all(out, self.whole)
    }
}

ghost use Rattle.std.specs.Prelude.{◌≡◌, ◌≢◌, IfOk, IfErr, Ok, Err};
ghost use Rattle.std.specs.Option.{option_copied};
ghost use Rattle.devices.specs.Device.{Wrote};
ghost use Rattle.der_core.specs.Reading.{Gives};
ghost use Rattle.der_core.specs.ReadFaults.{IsReadFault};
ghost use Rattle.der_core.specs.Grammar.{file};
ghost use Rattle.der_grammar.specs.Table.{request};
ghost use Rattle.tsp_types.specs.RequestReading.{request_in, request_at};
ghost use Rattle.tsp_types.specs.RequestValue.{RequestValue, EncodesRequest, encoding};
ghost use Rattle.tsp_types.specs.RequestFields.{fields_value};

use crate::imprint::Imprint;
use cert_types::Extensions;
use der_core::tags::{INTEGER, SEQUENCE};
use der_core::{AlgorithmIdentifier, Cursor, Fault, Flag, Int, Oid, ReadFault};
use devices::{Sink, SinkFault, put_all};
use std::marker::Model;

/// The identifier octet of the extensions, `[0] IMPLICIT` (RFC 3161 2.4.1).
const EXTENSIONS: u8 = 0xa0;

/// The only version of requests.
const VERSION: [u8; 1] = [1];

// The parts of a request.
#[derive(Debug, Drop)]
struct RequestFields<'a> {
    imprint: Imprint<'a>,
    policy: Option<Oid<'a>>,
    nonce: Option<Int<'a>>,
    cert_req: Flag,
    extensions: Option<Extensions<'a>>,
}

/// A time-stamp request (RFC 3161 2.4.1), as a view of its octets.
///
/// Contracts see a `RequestValue` (`specs/RequestValue.antt`).
#[derive(Debug, Drop)]
pub struct Request<'a> {
    whole: &'a [u8],
    fields: RequestFields<'a>,
}

impl<'a> Model for Request<'a> {
    ghost use Rattle.tsp_types.specs.RequestValue.{RequestValue, EncodesRequest};
    ghost use Rattle.tsp_types.specs.RequestFields.{fields_value};

    ghost Value = { RequestValue };

    ghost view = { λ r. fields_value r.fields };

    ghost invariant = { λ r. EncodesRequest r.whole.now (fields_value r.fields) };
}

// TimeStampReq ::= SEQUENCE { version INTEGER { v1(1) }, messageImprint MessageImprint, reqPolicy TSAPolicyId OPTIONAL,
//   nonce INTEGER OPTIONAL, certReq BOOLEAN DEFAULT FALSE, extensions [0] IMPLICIT Extensions OPTIONAL }
#[tactic(auto, unfolding(crate::specs::RequestReading::request_in))]
fn fields_of<'a>(mut parts: Cursor<'a>) -> Result<RequestFields<'a>, Fault>
    ensures { Gives fields_value result (request_in parts.entry) }
{
    let _ = parts.version(&VERSION)?;
    let imprint = Imprint::fields_of(parts.enter(SEQUENCE)?)?;
    let policy = parts.optional_oid()?;
    let nonce = parts.optional_integer(INTEGER)?;
    let cert_req = parts.flag()?;
    let extensions = if parts.has(EXTENSIONS) {
        let list = parts.enter(EXTENSIONS)?;
        Some(Extensions::read(list)?)
    } else {
        parts.none()?;
        None
    };
    parts.end()?;
    Ok(RequestFields {
        imprint,
        policy,
        nonce,
        cert_req,
        extensions,
    })
}

#[tactic(auto, unfolding(crate::specs::RequestReading::request_at))]
fn whole_of<'a>(bytes: &'a [u8]) -> Result<RequestFields<'a>, Fault>
    ensures { Gives fields_value result (request_at bytes.now) }
{
    let mut input = Cursor::new(bytes, 0);
    let fields = fields_of(input.enter(SEQUENCE)?)?;
    input.end()?;
    Ok(fields)
}

impl<'a> Request<'a> {
    /// The request that all of `bytes` encode. It allocates nothing.
    ///
    /// Errors: `Malformed`, with a fault that the octets have, if they don't encode one.
    pub fn read(bytes: &'a [u8]) -> Result<Request<'a>, ReadFault>
        // A value that is read is encoded by the octets.
        ensures found { IfOk result (λ v. EncodesRequest bytes.now v) }
        // A value that the octets encode is read.
        ensures only { (v : RequestValue) → EncodesRequest bytes.now v → result ≡ Ok v }
        // A fault that is reported is one that the octets have.
        ensures fault { IfErr result (IsReadFault (file request) bytes.now) }
        // It never reports a lack of memory.
        ensures no_memory { result ≢ Err ReadFault.OutOfMemory }
    {
        let fields = whole_of(bytes)?;
        Ok(Request {
            whole: bytes,
            fields,
        })
    }

    /// The hash algorithm of the imprint.
    pub fn algorithm(&self) -> &AlgorithmIdentifier<'a>
        ensures { result.now ≡ self.now.imprint.algorithm }
    {
        self.fields.imprint.algorithm()
    }

    /// The hash of what is to be stamped: the contents of the imprint's OCTET STRING.
    pub fn imprint(&self) -> &'a [u8]
        ensures { result.now ≡ self.now.imprint.digest }
    {
        self.fields.imprint.digest()
    }

    /// The policy under which the stamp is requested.
    pub fn policy(&self) -> Option<&Oid<'a>>
        ensures { option_copied result ≡ self.now.policy }
    {
        self.fields.policy.as_ref()
    }

    /// The number that the answer has to repeat.
    pub fn nonce(&self) -> Option<&Int<'a>>
        ensures { option_copied result ≡ self.now.nonce }
    {
        self.fields.nonce.as_ref()
    }

    /// Whether the answer is to contain the certificate of the time-stamping authority, as it is encoded.
    pub fn cert_req(&self) -> Flag
        ensures { result ≡ self.now.cert_req }
    {
        self.fields.cert_req
    }

    /// The extensions (RFC 3161 2.4.1). `None` if the field is absent.
    pub fn extensions(&self) -> Option<&Extensions<'a>>
        ensures { option_copied result ≡ self.now.extensions }
    {
        self.fields.extensions.as_ref()
    }

    /// Writes the octets that encode the request.
    ///
    /// Errors: `SinkFault` if the sink fails; then only a beginning of the octets was written.
    pub fn write<S: Sink>(&self, out: &mut S) -> Result<(), SinkFault>
        // The whole encoding, or after a fault a beginning of it; the count of failures rose exactly if there was a
        // fault.
        ensures wrote { Wrote result (S.tells out.old) (S.taken out.old) (S.taken out.new) (S.failures out.old)
            (S.failures out.new) (encoding self.now) }
        // If it was known what the sink took, it still is.
        ensures telling { S.tells out.old → S.tells out.new }
    {
        put_all(out, self.whole)
    }
}

ghost use Rattle.std.specs.Prelude.{◌≡◌, ◌≢◌, IfOk, IfErr, Ok, Err, option_map};
ghost use Rattle.std.specs.Option.{option_copied};
ghost use Rattle.devices.specs.Device.{Wrote};
ghost use Rattle.der_core.specs.Reading.{Gives};
ghost use Rattle.der_core.specs.ReadFaults.{IsReadFault};
ghost use Rattle.der_core.specs.Grammar.{file};
ghost use Rattle.der_grammar.specs.Table.{response};
ghost use Rattle.tsp_types.specs.FailBits.{fails_by};
ghost use Rattle.tsp_types.specs.ResponseValue.{ResponseValue, EncodesResponse, encoding};
ghost use Rattle.tsp_types.specs.ResponseReading.{status_in, response_in, response_at};
ghost use Rattle.tsp_types.specs.ResponseFields.{response_value};

use crate::texts::Texts;
use der_core::tags::{BIT_STRING, SEQUENCE};
use der_core::{Bits, Cursor, Fault, Int, ReadFault};
use devices::{Sink, SinkFault, put_all};
use std::marker::Model;

// The status of the answer, with its texts and its failure bits.
#[derive(Debug, Drop)]
struct Status<'a> {
    number: Int<'a>,
    texts: Option<Texts<'a>>,
    fail: Option<Bits<'a>>,
}

impl<'a> Model for Status<'a> {
    ghost use Rattle.tsp_types.specs.ResponseValue.{StatusValue};

    ghost Value = { StatusValue };

    ghost view = { λ s. record { number = s.number; texts = s.texts; fail = s.fail } };
}

// The parts of a response.
#[derive(Debug, Drop)]
struct ResponseFields<'a> {
    status: Status<'a>,
    token: Option<&'a [u8]>,
}

/// The answer of a time-stamping authority to a request (RFC 3161 2.4.2), as a view of its octets.
///
/// Contracts see a `ResponseValue` (`specs/ResponseValue.antt`).
#[derive(Debug, Drop)]
pub struct Response<'a> {
    whole: &'a [u8],
    fields: ResponseFields<'a>,
}

impl<'a> Model for Response<'a> {
    ghost use Rattle.tsp_types.specs.ResponseValue.{ResponseValue, EncodesResponse};
    ghost use Rattle.tsp_types.specs.ResponseFields.{response_value};

    ghost Value = { ResponseValue };

    ghost view = { λ r. response_value r.fields };

    ghost invariant = { λ r. EncodesResponse r.whole.now (response_value r.fields) };
}

// PKIStatusInfo ::= SEQUENCE { status PKIStatus, statusString PKIFreeText OPTIONAL, failInfo PKIFailureInfo OPTIONAL }
#[tactic(auto, unfolding(crate::specs::ResponseReading::status_in))]
fn status_of<'a>(mut parts: Cursor<'a>) -> Result<Status<'a>, Fault>
    ensures { Gives (λ s. s) result (status_in parts.entry) }
{
    let number = parts.integer()?;
    let texts = if parts.has(SEQUENCE) {
        Some(Texts::read(parts.enter(SEQUENCE)?)?)
    } else {
        None
    };
    let fail = parts.last_bits(BIT_STRING)?;
    parts.end()?;
    Ok(Status {
        number,
        texts,
        fail,
    })
}

// TimeStampResp ::= SEQUENCE { status PKIStatusInfo, timeStampToken TimeStampToken OPTIONAL }
#[tactic(auto, unfolding(crate::specs::ResponseReading::response_in))]
fn fields_of<'a>(mut parts: Cursor<'a>) -> Result<ResponseFields<'a>, Fault>
    ensures { Gives response_value result (response_in parts.entry) }
{
    let status = status_of(parts.enter(SEQUENCE)?)?;
    let token = parts.last_element(SEQUENCE)?;
    parts.end()?;
    Ok(ResponseFields { status, token })
}

#[tactic(auto, unfolding(crate::specs::ResponseReading::response_at))]
fn whole_of<'a>(bytes: &'a [u8]) -> Result<ResponseFields<'a>, Fault>
    ensures { Gives response_value result (response_at bytes.now) }
{
    let mut input = Cursor::new(bytes, 0);
    let fields = fields_of(input.enter(SEQUENCE)?)?;
    input.end()?;
    Ok(fields)
}

impl<'a> Response<'a> {
    /// The response that all of `bytes` encode. It allocates nothing.
    ///
    /// Errors: `Malformed`, with a fault that the octets have, if they don't encode one.
    pub fn read(bytes: &'a [u8]) -> Result<Response<'a>, ReadFault>
        // A value that is read is encoded by the octets.
        ensures found { IfOk result (λ v. EncodesResponse bytes.now v) }
        // A value that the octets encode is read.
        ensures only { (v : ResponseValue) → EncodesResponse bytes.now v → result ≡ Ok v }
        // A fault that is reported is one that the octets have.
        ensures fault { IfErr result (IsReadFault (file response) bytes.now) }
        // It never reports a lack of memory.
        ensures no_memory { result ≢ Err ReadFault.OutOfMemory }
    {
        let fields = whole_of(bytes)?;
        Ok(Response {
            whole: bytes,
            fields,
        })
    }

    /// The number of the status; a stamp was granted by 0 and 1.
    pub fn status(&self) -> &Int<'a>
        ensures { result.now ≡ self.now.status.number }
    {
        &self.fields.status.number
    }

    /// What the authority states about the status in words.
    pub fn texts(&self) -> Option<&Texts<'a>>
        ensures { option_copied result ≡ self.now.status.texts }
    {
        self.fields.status.texts.as_ref()
    }

    /// Why no stamp was granted, as bits.
    pub fn fail(&self) -> Option<&Bits<'a>>
        ensures { option_copied result ≡ self.now.status.fail }
    {
        self.fields.status.fail.as_ref()
    }

    /// Whether bit `n` of `fail` is set; bit 0 is the first. If there is no BIT STRING, no bit is set.
    pub fn fails(&self, n: usize) -> bool
        ensures { result ≡ fails_by n self.now.status.fail }
    {
        match &self.fields.status.fail {
            Some(bits) => bits.has(n),
            None => false,
        }
    }

    /// The time-stamp token, as a whole element. Its contents are not read.
    pub fn token(&self) -> Option<&'a [u8]>
        ensures { option_map (λ x. x.now) result ≡ self.now.token }
    {
        self.fields.token
    }

    /// Writes the octets that encode the response.
    ///
    /// Errors: `SinkFault` if the sink fails; then only a beginning of the octets was written.
    pub fn write<S: Sink>(&self, out: &mut S) -> Result<(), SinkFault>
        // The whole encoding, or after a fault a beginning of it; the count of failures rose exactly if there was a
        // fault.
        ensures wrote { Wrote result (S.tells out.old) (S.taken out.old) (S.taken out.new) (S.failures out.old)
            (S.failures out.new) (encoding self.now) }
        // If it was known what the sink took, it still is.
        ensures telling { S.tells out.old → S.tells out.new }
    {
        put_all(out, self.whole)
    }
}

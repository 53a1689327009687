ghost use Rattle.std.specs.Prelude.{◌≡◌, ◌↔◌, IsTrue, IsOk, IfErr, IfOk, Any, Some};
ghost use Rattle.tsp_requester.specs.Answering.{IsGranted, SameImprint, HasNonce, HasPolicy, IsNamed, HasCertificate};
ghost use Rattle.tsp_requester.specs.Answering.{HasWhatIsAsked, Answering, IsGrantedToken, LacksToken, MatchFails};
ghost use Rattle.tsp_requester.specs.TokenParts.{token_value};

use crate::rules::MatchFault;
use crate::time_stamp::{TimeStamp, time_stamp};
use cert_types::Certificate;
use check_names::{EachTime, must_name};
use cms_types::Attributes;
use der_core::Flag;
use der_core::octets::is_same;
use der_lists::Opaques;
use tsp_types::{Request, Response, TstInfo};

/// The contents of the statuses granted and grantedWithMods (RFC 3161 2.4.2).
const GRANTED: [u8; 1] = [0];

const GRANTED_WITH_MODS: [u8; 1] = [1];

fn is_granted(response: &Response) -> bool
    ensures { IsTrue result ↔ IsGranted response.now }
{
    let status = response.status().bytes();
    is_same(status, &GRANTED) || is_same(status, &GRANTED_WITH_MODS)
}

// Whether the stamp is of the imprint that the request has.
fn has_imprint(request: &Request, stamp: &TstInfo) -> bool
    ensures { IsTrue result ↔ SameImprint request.now.imprint stamp.now.imprint }
{
    is_same(
        request.algorithm().oid().bytes(),
        stamp.algorithm().oid().bytes(),
    ) && is_same(request.imprint(), stamp.imprint())
}

fn has_nonce(request: &Request, stamp: &TstInfo) -> bool
    ensures { IsTrue result ↔ HasNonce request.now stamp.now }
{
    match (request.nonce(), stamp.nonce()) {
        (Some(asked), Some(stamped)) => is_same(stamped.bytes(), asked.bytes()),
        (Some(_), None) => false,
        (None, _) => true,
    }
}

fn has_policy(request: &Request, stamp: &TstInfo) -> bool
    ensures { IsTrue result ↔ HasPolicy request.now stamp.now }
{
    match request.policy() {
        Some(asked) => is_same(stamp.policy().bytes(), asked.bytes()),
        None => true,
    }
}

// Whether the element is a certificate that the attributes name. An element that can't be read as one is none.
fn is_named(attributes: &Attributes, element: &[u8]) -> bool
    ensures { IsTrue result ↔ IsNamed attributes.now element.now }
{
    match Certificate::read(element) {
        Ok(certificate) => must_name(attributes, &certificate, 0, &mut EachTime),
        Err(_) => false,
    }
}

// Whether the attributes name one of these elements.
fn names_one_of(attributes: &Attributes, elements: &Opaques) -> bool
    ensures { IsTrue result ↔ Any (IsNamed attributes.now) elements.now }
{
    let mut left = elements.again();
    while let Some((element, others)) = left.next() {
        if is_named(attributes, element.whole()) {
            return true;
        }
        left = others;
    }
    false
}

// Whether the certificate that the signer's attributes name is among those of the token.
fn has_certificate(token: &TimeStamp) -> bool
    ensures { IsTrue result ↔ HasCertificate (token_value token.now) }
{
    let Some(attributes) = token.signer.attributes() else {
        return false;
    };
    let Some(certificates) = token.signed.certificates() else {
        return false;
    };
    names_one_of(attributes, certificates)
}

fn has_what_is_asked(request: &Request, token: &TimeStamp) -> bool
    ensures { IsTrue result ↔ HasWhatIsAsked request.now (token_value token.now) }
{
    match request.cert_req() {
        Flag::True => has_certificate(token),
        Flag::False | Flag::Absent => true,
    }
}

/// The octets of the token of a response that was granted (RFC 3161 2.4.2). Whether they are a token isn't asked.
///
/// Errors: `P1` if the status is neither granted nor grantedWithMods; `P2` if there is no token.
pub fn granted_token<'a>(response: &Response<'a>) -> Result<&'a [u8], MatchFault>
    // Returns the token of the response, which was granted.
    ensures token { IfOk result (λ octets. IsGrantedToken response.now octets.now) }
    // Returns P1 or P2, the first that fails.
    ensures rule { IfErr result (LacksToken response.now) }
{
    if !is_granted(response) {
        return Err(MatchFault::Status);
    }
    match response.token() {
        Some(octets) => Ok(octets),
        None => Err(MatchFault::NoToken),
    }
}

/// Whether the response answers the request (RFC 3161 2.2, 2.4.2). No signature is checked, and no certificate.
///
/// Errors: the first that applies. `P1` if the status is neither granted nor grantedWithMods; `P2` if there is no
/// token; `P3` if the token isn't a SignedData whose content is present and a TSTInfo by type and form, or doesn't have
/// exactly one signer; `P4` if the identifier of the imprint's algorithm or its hash differs; `P5` if the request has a
/// nonce and the token doesn't have the same one; `P6` if the request names a policy and the token has another; `P7` if
/// the request asks for the certificate, and none of the certificates in the token that can be read is named by the
/// signed attributes as by `must_name`.
pub fn answers(request: &Request, response: &Response) -> Result<(), MatchFault>
    // Succeeds exactly if the response answers the request (RFC 3161 2.2, 2.4.2).
    ensures answers { IsOk result ↔ Answering request.now response.now }
    // Returns the first of P1 to P7 that fails.
    ensures rule { IfErr result (MatchFails request.now response.now) }
{
    let octets = granted_token(response)?;
    let Some(token) = time_stamp(octets) else {
        return Err(MatchFault::TokenMalformed);
    };
    if !has_imprint(request, &token.stamp) {
        return Err(MatchFault::Imprint);
    }
    if !has_nonce(request, &token.stamp) {
        return Err(MatchFault::Nonce);
    }
    if !has_policy(request, &token.stamp) {
        return Err(MatchFault::Policy);
    }
    if !has_what_is_asked(request, &token) {
        return Err(MatchFault::CertMissing);
    }
    Ok(())
}

//! What a time-stamp token states, before it matters what was stamped and who is trusted: K1 to K8.
ghost use Rattle.std.specs.Prelude.{◌≡◌, [], Ok, Err, MatchResult, unwrap_or};
ghost use Rattle.der_core.specs.Lists.{some};
ghost use Rattle.check_fit.specs.FileFitting.{IsReading};
ghost use Rattle.check_verdict.specs.TokenRules.{IsTstReading, IsStatement, is_critical, held, signed_by, imprint_alg};

use cert_types::Extensions;
use check_fit::{Policy, TokenRule, signer_fits};
use cms_types::{CmsFault, SignedData, Signer};
use der_core::octets::is_same;
use der_core::{Fault, Flag, ReadFault};
use der_time::Moment;
use digests::Alg;
use std::marker::Model;
use tsp_types::TstInfo;
use tsp_types::oids::TST_INFO;

/// Who signed a token, and when what was stamped existed.
///
/// Contracts see a `TokenClaim` (`specs/TokenRules.antt`).
#[derive(Debug, Drop)]
pub(crate) struct Claim<'a> {
    /// The signer that states it.
    pub signer: Signer<'a>,
    /// When what was stamped existed.
    pub moment: Moment,
}

impl<'a> Model for Claim<'a> {
    ghost use Rattle.std.specs.Prelude.{[], unwrap_or};
    ghost use Rattle.check_verdict.specs.TokenRules.{TokenClaim};

    ghost Value = { TokenClaim };

    ghost view = { λ c. record {
      signer = c.signer;
      attributes = unwrap_or c.signer.signed_attributes [];
      moment = c.moment;
    } };
}

/// What a token states (RFC 3161 2.4.2): who signed it, a moment, and the imprint of what was stamped.
///
/// Contracts see a `Statement` (`specs/TokenRules.antt`).
#[derive(Debug, Drop)]
pub struct Stamp<'a> {
    /// Who states it, and when what was stamped existed.
    pub(crate) claim: Claim<'a>,
    alg: Alg,
    /// The octets of the imprint.
    pub(crate) imprint: &'a [u8],
}

impl<'a> Model for Stamp<'a> {
    ghost use Rattle.check_verdict.specs.TokenRules.{Statement};

    ghost Value = { Statement };

    ghost view = { λ s. record { claim = s.claim; alg = s.alg; imprint = s.imprint.now } };
}

// K2 and K3: the content, which is a TSTInfo by its type.
fn held<'a>(signed: &SignedData<'a>) -> Result<&'a [u8], TokenRule>
    ensures { MatchResult result (λ b. held signed.now ≡ Ok b.now) (λ e. held signed.now ≡ Err e) }
{
    if !is_same(signed.content_type().bytes(), &TST_INFO) {
        return Err(TokenRule::ContentType);
    }
    match signed.content() {
        Some(content) => Ok(content),
        None => Err(TokenRule::NoContent),
    }
}

// K4 and K5: the one signer, whose signed attributes belong to this content.
fn signed_by<'a>(
    policy: Policy,
    signed: &SignedData<'a>,
    content: &[u8],
) -> Result<Signer<'a>, TokenRule>
    ensures { result ≡ signed_by policy signed.now content.now }
{
    let Some(signer) = signed.signers().only() else {
        return Err(TokenRule::OneSigner);
    };
    match signer_fits(policy, content, &TST_INFO, &signer) {
        Ok(()) => Ok(signer),
        Err(rule) => Err(TokenRule::Attributes(rule)),
    }
}

// Whether one of the extensions is encoded as critical.
fn is_one_critical(extensions: &Extensions) -> bool
    ensures { result ≡ some is_critical extensions.now }
{
    let mut left = extensions.again();
    while let Some((extension, others)) = left.next() {
        if extension.critical() == Flag::True {
            return true;
        }
        left = others;
    }
    false
}

// K7: whether the TSTInfo has a critical extension.
fn has_critical(stamp: &TstInfo) -> bool
    ensures { result ≡ some is_critical (unwrap_or stamp.now.extensions []) }
{
    match stamp.extensions() {
        Some(extensions) => is_one_critical(extensions),
        None => false,
    }
}

// K7 and K8: no extension is critical, and the imprint's algorithm is allowed.
fn imprint_alg(policy: Policy, stamp: &TstInfo) -> Result<Alg, TokenRule>
    ensures { result ≡ imprint_alg policy stamp.now }
{
    if has_critical(stamp) {
        return Err(TokenRule::CriticalExtension);
    }
    let algorithm = stamp.algorithm();
    match policy.allowed(Alg::of(algorithm.oid(), algorithm.parameters())) {
        Some(alg) => Ok(alg),
        None => Err(TokenRule::ImprintAlgorithm),
    }
}

// K1: the SignedData that the octets encode.
fn opened<'a>(token: &'a [u8]) -> Result<SignedData<'a>, CmsFault>
    ensures { IsReading token.now result }
{
    SignedData::read(token)
}

// K6: the TSTInfo that the octets encode.
fn stamp_of<'a>(content: &'a [u8]) -> Result<TstInfo<'a>, Fault>
    ensures { IsTstReading content.now result }
{
    match TstInfo::read(content) {
        Ok(stamp) => Ok(stamp),
        Err(ReadFault::Malformed(fault)) => Err(fault),
        Err(ReadFault::OutOfMemory) => unreachable!(),
    }
}

impl<'a> Stamp<'a> {
    /// What a token, the octets of a ContentInfo, states (RFC 3161 2.4.2).
    ///
    /// Errors: the first of K1 to K8 that fails.
    pub fn read(policy: Policy, token: &'a [u8]) -> Result<Stamp<'a>, TokenRule>
        // What the token states, or the first of K1 to K8 that fails.
        ensures { IsStatement policy token.now result }
    {
        let signed = match opened(token) {
            Ok(signed) => signed,
            Err(fault) => return Err(TokenRule::Malformed(fault)),
        };
        let content = held(&signed)?;
        let signer = signed_by(policy, &signed, content)?;
        let stamp = match stamp_of(content) {
            Ok(stamp) => stamp,
            Err(fault) => return Err(TokenRule::TstMalformed(fault)),
        };
        let alg = imprint_alg(policy, &stamp)?;
        let moment = stamp.time();
        Ok(Stamp {
            claim: Claim { signer, moment },
            alg,
            imprint: stamp.imprint(),
        })
    }

    /// The algorithm of the imprint: by this one what was stamped must be digested.
    pub fn alg(&self) -> Alg
        ensures { result ≡ self.now.alg }
    {
        self.alg
    }
}

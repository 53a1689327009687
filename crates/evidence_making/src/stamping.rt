//! Whether a token is the time-stamp of the root of a hash tree (RFC 3161 2.4.2; RFC 4998 4.2).
ghost use Rattle.std.specs.Prelude.{◌≡◌, ◌≢◌, ◌↔◌, ℕ, Ok, Err, IfOk, IsTrue, MatchOption};
ghost use Rattle.evidence_types.specs.StampValue.{IsSequence};
ghost use Rattle.check_evidence.specs.StampStates.{States};
ghost use Rattle.evidence_making.specs.Stamping.{IsNoToken, IsRootImprint, StampsAnother, StampsRoot};
ghost use Rattle.evidence_making.specs.StampSteps.{IsMomentFor};

use crate::fault::StampFault;
use crate::naming::names;
use cms_types::SignedData;
use der_core::octets::is_same;
use der_time::Moment;
use digests::Digest;
use tsp_types::TstInfo;
use tsp_types::oids::TST_INFO;

// What a token states, whoever signed it.
fn stated_by<'a>(token: &'a [u8]) -> Option<TstInfo<'a>>
    ensures { MatchOption result (IsNoToken token.now) (States token.now) }
{
    let Ok(signed) = SignedData::read(token) else {
        return None;
    };
    if !is_same(signed.content_type().bytes(), &TST_INFO) {
        return None;
    }
    let Some(content) = signed.content() else {
        return None;
    };
    let Ok(stated) = TstInfo::read(content) else {
        return None;
    };
    Some(stated)
}

// Whether the imprint of a time-stamp is the root.
fn is_root_imprint(stated: &TstInfo, root: &Digest) -> bool
    ensures { IsTrue result ↔ IsRootImprint stated.now.imprint root.now }
{
    if !names(stated.algorithm(), root.alg()) {
        return false;
    }
    root.is(stated.imprint())
}

// The moment of a time-stamp whose imprint is the root.
fn moment_for(stated: &TstInfo, root: &Digest) -> Result<Moment, StampFault>
    ensures { IsMomentFor stated.now root.now result }
{
    if is_root_imprint(stated, root) {
        Ok(stated.time())
    } else {
        Err(StampFault::ImprintDiffers)
    }
}

/// The moment of a token, its `genTime`, if it stamps the root of a hash tree: its imprint names the algorithm of the
/// root and has its octets (RFC 3161 2.4.2; RFC 4998 4.2). It may have any number of signers; nothing shows who they
/// are, nor that the signatures are good. It allocates nothing.
///
/// Errors: `TokenMalformed` if the octets are no token: no SignedData whose content is a TSTInfo, by its type and its
/// octets; `ImprintDiffers` if the imprint is another.
pub fn stamp_of_root(token: &[u8], root: &Digest) -> Result<Moment, StampFault>
    // A moment is that of a token whose imprint is the root.
    ensures found { IfOk result (StampsRoot token.now root.now) }
    // The moment of such a token is returned.
    ensures only { (m : ℕ) → StampsRoot token.now root.now m → result ≡ Ok m }
    // `TokenMalformed` is returned exactly if the octets are no token.
    ensures malformed { (result ≡ Err StampFault.TokenMalformed) ↔ IsNoToken token.now }
    // `ImprintDiffers` is returned exactly if the imprint is another.
    ensures differs { (result ≡ Err StampFault.ImprintDiffers) ↔ StampsAnother token.now root.now }
    // The order of moments is not tested.
    ensures no_order { result ≢ Err StampFault.Order }
    // A token whose moment is returned is one SEQUENCE, as `make_record` requires.
    ensures sequence { IfOk result (λ _. IsSequence token.now) }
{
    match stated_by(token) {
        Some(stated) => moment_for(&stated, root),
        None => Err(StampFault::TokenMalformed),
    }
}

ghost use Rattle.std.specs.Prelude.{◌≡◌, ◌↔◌, IsTrue, IfSome, None};
ghost use Rattle.tsp_types.specs.TstValue.{TstValue};
ghost use Rattle.tsp_requester.specs.Attaching.{IsToken, IsImprintOf};

use cms_types::SignedData;
use der_core::octets::is_same;
use digests::{Alg, digest};
use tsp_types::TstInfo;
use tsp_types::oids::TST_INFO;

// The TSTInfo of a token, if the octets are one.
pub(crate) fn stamp_of<'a>(token: &'a [u8]) -> Option<TstInfo<'a>>
    ensures found { IfSome result (λ s. IsToken token.now s) }
    ensures only { result ≡ None → (s : TstValue) → IsToken token.now s → ⊥ }
{
    let Ok(signed) = SignedData::read(token) else {
        return None;
    };
    if !is_same(signed.content_type().bytes(), &TST_INFO) {
        return None;
    }
    let Ok(stamp) = TstInfo::read(signed.content()?) else {
        return None;
    };
    Some(stamp)
}

// Whether the stamp is of these octets.
pub(crate) fn is_stamp_of(stamp: &TstInfo, octets: &[u8]) -> bool
    ensures { IsTrue result ↔ IsImprintOf stamp.now.imprint octets.now }
{
    let algorithm = stamp.algorithm();
    match Alg::of(algorithm.oid(), algorithm.parameters()) {
        Some(alg) => is_same(stamp.imprint(), digest(alg, octets).bytes()),
        None => false,
    }
}

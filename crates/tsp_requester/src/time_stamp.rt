ghost use Rattle.std.specs.Prelude.{◌≡◌, IfSome, None};
ghost use Rattle.tsp_requester.specs.Answering.{TokenValue, IsTimeStamp};
ghost use Rattle.tsp_requester.specs.TokenParts.{token_value};

use cms_types::{SignedData, Signer};
use der_core::octets::is_same;
use tsp_types::TstInfo;
use tsp_types::oids::TST_INFO;

// The parts of a time-stamp token: the SignedData, its one signer, and its content.
#[derive(Drop)]
pub(crate) struct TimeStamp<'a> {
    pub(crate) signed: SignedData<'a>,
    pub(crate) signer: Signer<'a>,
    pub(crate) stamp: TstInfo<'a>,
}

// The parts of the octets, if they are a time-stamp token.
pub(crate) fn time_stamp<'a>(octets: &'a [u8]) -> Option<TimeStamp<'a>>
    ensures found { IfSome result (λ t. IsTimeStamp octets.now (token_value t)) }
    ensures only { result ≡ None → (t : TokenValue) → IsTimeStamp octets.now t → ⊥ }
{
    let Ok(signed) = SignedData::read(octets) else {
        return None;
    };
    if !is_same(signed.content_type().bytes(), &TST_INFO) {
        return None;
    }
    let Ok(stamp) = TstInfo::read(signed.content()?) else {
        return None;
    };
    let signer = signed.signers().only()?;
    Some(TimeStamp {
        signed,
        signer,
        stamp,
    })
}

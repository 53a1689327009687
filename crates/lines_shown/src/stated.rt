//! What a time-stamp token states, whoever and however many signed it (RFC 3161 2.4.2).
ghost use Rattle.std.specs.Prelude.{◌≡◌, Some, IfNone, IfSome};
ghost use Rattle.tsp_types.specs.TstValue.{id_tst_info};
ghost use Rattle.lines_shown.specs.EvidenceLines.{IsStatement};

use cms_types::SignedData;
use der_core::octets::is_same;
use tsp_types::TstInfo;
use tsp_types::oids::TST_INFO;

/// The content, if it is a TSTInfo by its type.
fn content_of<'a>(signed: &SignedData<'a>) -> Option<&'a [u8]>
    ensures found { IfSome result (λ content. (signed.now.encapsulated.content_type ≡ id_tst_info)
        × (signed.now.encapsulated.content ≡ Some content.now)) }
    ensures none { IfNone result (signed.now.encapsulated.content_type ≡ id_tst_info
        → signed.now.encapsulated.content ≡ None) }
{
    if is_same(signed.content_type().bytes(), &TST_INFO) {
        signed.content()
    } else {
        None
    }
}

/// What the octets state, if they are a token whose content is a TSTInfo.
pub fn stated_by<'a>(token: &'a [u8]) -> Option<TstInfo<'a>>
    ensures { IsStatement token.now result }
{
    let Ok(signed) = SignedData::read(token) else {
        return None;
    };
    let Some(content) = content_of(&signed) else {
        return None;
    };
    match TstInfo::read(content) {
        Ok(stated) => Some(stated),
        Err(_) => None,
    }
}

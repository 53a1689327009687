ghost use Rattle.std.specs.Prelude.{Ok};
ghost use Rattle.der_core.specs.Reading.{Gives};
ghost use Rattle.cms_types.specs.Fields.{signed_data_value, content_value};
ghost use Rattle.cms_types.specs.SignedDataReading.{explicit_signed_data_in, signed_content_in, other_content_in};
ghost use Rattle.cms_types.specs.SignedDataReading.{content_info_in, content_info_at};

use crate::oids::SIGNED_DATA;
use crate::signed_data::{SignedDataFields, fields_of};
use der_core::octets::is_same;
use der_core::tags::SEQUENCE;
use der_core::{Cursor, Fault, Oid};
use der_lists::Opaque;

/// The identifier octet of the content, `[0] EXPLICIT` (RFC 5652 3).
const CONTENT: u8 = 0xa0;

// The content of a ContentInfo: a SignedData, or an element of another type.
#[derive(Drop)]
pub(crate) enum Content<'a> {
    Signed(SignedDataFields<'a>),
    Other(Oid<'a>, &'a [u8]),
}

// content [0] EXPLICIT SignedData
#[tactic(auto, unfolding(crate::specs::SignedDataReading::explicit_signed_data_in))]
fn explicit_signed_data<'a>(mut inside: Cursor<'a>) -> Result<SignedDataFields<'a>, Fault>
    ensures { Gives signed_data_value result (explicit_signed_data_in inside.entry) }
{
    let fields = fields_of(inside.enter(SEQUENCE)?)?;
    inside.end()?;
    Ok(fields)
}

#[tactic(auto, unfolding(crate::specs::SignedDataReading::signed_content_in))]
fn signed_content<'a>(mut parts: Cursor<'a>) -> Result<SignedDataFields<'a>, Fault>
    ensures { Gives signed_data_value result (signed_content_in parts.entry) }
{
    let fields = explicit_signed_data(parts.enter(CONTENT)?)?;
    parts.end()?;
    Ok(fields)
}

// content [0] EXPLICIT ANY
#[tactic(auto, unfolding(crate::specs::SignedDataReading::other_content_in))]
fn other_content<'a>(mut parts: Cursor<'a>) -> Result<&'a [u8], Fault>
    ensures { Gives (λ b. b.now) result (other_content_in parts.entry) }
{
    let content = Opaque::read(parts.enter(CONTENT)?)?;
    parts.end()?;
    Ok(content.whole())
}

// ContentInfo ::= SEQUENCE { contentType ContentType, content [0] EXPLICIT ANY DEFINED BY contentType }
#[tactic(auto, unfolding(crate::specs::SignedDataReading::content_info_in))]
fn content_info<'a>(mut parts: Cursor<'a>) -> Result<Content<'a>, Fault>
    ensures { Gives content_value result (content_info_in parts.entry) }
{
    let content_type = parts.oid()?;
    if is_same(&SIGNED_DATA, content_type.bytes()) {
        return Ok(Content::Signed(signed_content(parts)?));
    }
    let content = other_content(parts)?;
    Ok(Content::Other(content_type, content))
}

#[tactic(auto, unfolding(crate::specs::SignedDataReading::content_info_at))]
pub(crate) fn content_of<'a>(bytes: &'a [u8]) -> Result<Content<'a>, Fault>
    ensures { Gives content_value result (content_info_at bytes.now) }
{
    let mut input = Cursor::new(bytes, 0);
    let content = content_info(input.enter(SEQUENCE)?)?;
    input.end()?;
    Ok(content)
}

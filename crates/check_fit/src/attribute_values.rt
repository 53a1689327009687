ghost use Rattle.std.specs.Prelude.{◌≡◌};
ghost use Rattle.der_core.specs.Lists.{only};
ghost use Rattle.check_fit.specs.Attributes.{single_value};

use cms_types::Attributes;
use der_lists::{Opaque, Opaques};

/// The only value of a list that has exactly one.
pub fn only_value<'a>(values: &Opaques<'a>) -> Option<Opaque<'a>>
    ensures { result ≡ only values.now }
{
    let (value, others) = values.next()?;
    if others.is_empty() { Some(value) } else { None }
}

/// The value of the attribute of this type, if exactly one attribute has this type and it has exactly one value (RFC
/// 5652 11.1, 11.2).
pub fn single_value<'a>(attributes: &Attributes<'a>, id: &[u8]) -> Option<Opaque<'a>>
    ensures { result ≡ single_value attributes.now id.now }
{
    let (value, others) = attributes.find_value(id)?;
    if others.has(id) {
        return None;
    }
    value
}

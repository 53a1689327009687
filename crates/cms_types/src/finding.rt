//! Attributes by their type.
ghost use Rattle.std.specs.Prelude.{◌≡◌, MatchOption};
ghost use Rattle.der_core.specs.Lists.{some};
ghost use Rattle.cms_types.specs.OfType.{has_type, NoneHas, HasFirst};

use crate::attribute::{behind_type, only_value};
use crate::attributes::Attributes;
use der_lists::Opaque;

impl<'a> Attributes<'a> {
    /// Of the first attribute of this type, whose identifier has these contents octets, the value if it has exactly
    /// one; and the attributes behind it. Those before it are passed over without being read again.
    pub fn find_value(&self, id: &[u8]) -> Option<(Option<Opaque<'a>>, Attributes<'a>)>
        // `None` exactly if no attribute has this type.
        ensures { MatchOption result (NoneHas id.now self.now) (λ x. HasFirst id.now self.now x.0 x.1) }
    {
        let mut left = self.again();
        while let Some((parts, others)) = left.enter() {
            if let Some(values) = behind_type(&parts, id) {
                return Some((only_value(values), others));
            }
            left = others;
        }
        None
    }

    /// Whether an attribute has this type, whose identifier has these contents octets.
    pub fn has(&self, id: &[u8]) -> bool
        // True exactly if one of the attributes has this type.
        ensures { result ≡ some (has_type id.now) self.now }
    {
        let mut left = self.again();
        while let Some((parts, others)) = left.enter() {
            if behind_type(&parts, id).is_some() {
                return true;
            }
            left = others;
        }
        false
    }
}

//! The trusted entries that a signer's identifier can match.
ghost use Rattle.std.specs.Prelude.{◌≡◌};
ghost use Rattle.cms_types.specs.Fields.{sid_value};
ghost use Rattle.trust_lists.specs.Marks.{IsNext};
ghost use Rattle.check_names.specs.Naming.{Matches};

use cms_types::SignerId;
use trust_lists::{Role, Trust};

/// The place of the next trusted entry of this role, from this place on, whose certificate a signer's identifier can
/// match (RFC 5652 5.3). It need not match; it matches none of those that were passed over and have the role.
pub fn next_candidate(trust: &Trust, role: Role, sid: &SignerId, from: usize) -> Option<usize>
    // An entry is found, or none is left. None of those that were passed over has the role and is matched.
    ensures { IsNext (λ e. (e.role ≡ role) × Matches (sid_value sid.now) e.certificate) trust.now from result }
{
    match sid {
        SignerId::IssuerAndSerial(issuer, serial) => {
            trust.next_serial(role, issuer, serial.bytes(), from)
        }
        SignerId::KeyId(id) => trust.next_key_id(role, id, from),
    }
}

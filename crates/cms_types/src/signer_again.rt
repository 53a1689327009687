//! The first signer of a list that was read before.
ghost use Rattle.std.specs.Prelude.{◌≡◌, ◌∷◌, [], MatchOption, IfSome};
ghost use Rattle.der_core.specs.Reading.{within};
ghost use Rattle.der_lists.specs.Items.{all_in, IsList};
ghost use Rattle.cms_types.specs.SignerReading.{signer_in};
ghost use Rattle.cms_types.specs.SignerValue.{BeginsBy};

use crate::front::enter_front;
use crate::signer::{Signer, digest_algorithm_of};
use der_core::{AlgorithmIdentifier, Cursor};

// The first signer of a list that was read before, and a cursor at the others.
pub(crate) fn first_signer<'a>(list: &Cursor<'a>) -> Option<(Signer<'a>, Cursor<'a>)>
    requires { IsList (within 0x30 signer_in) list.now }
    ensures values { MatchOption result (all_in (within 0x30 signer_in) list.now ≡ [])
        (λ x. all_in (within 0x30 signer_in) list.now ≡ x.0 ∷ all_in (within 0x30 signer_in) x.1) }
    ensures list { IfSome result (λ x. IsList (within 0x30 signer_in) x.1) }
{
    let (parts, ahead) = enter_front(list)?;
    let Ok(signer) = Signer::read_again(parts) else {
        return None;
    };
    Some((signer, ahead))
}

// The digest algorithm of the first signer of a list that was read before, and a cursor at the others.
pub(crate) fn first_digest_algorithm<'a>(
    list: &Cursor<'a>,
) -> Option<(AlgorithmIdentifier<'a>, Cursor<'a>)>
    requires { IsList (within 0x30 signer_in) list.now }
    ensures values { MatchOption result (all_in (within 0x30 signer_in) list.now ≡ [])
        (λ x. BeginsBy (all_in (within 0x30 signer_in) list.now) x.0 (all_in (within 0x30 signer_in) x.1)) }
    ensures list { IfSome result (λ x. IsList (within 0x30 signer_in) x.1) }
{
    let (parts, ahead) = enter_front(list)?;
    let Ok(algorithm) = digest_algorithm_of(parts) else {
        return None;
    };
    Some((algorithm, ahead))
}

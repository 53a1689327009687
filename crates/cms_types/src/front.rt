//! The front of a list that was read before.
ghost use Rattle.std.specs.Prelude.{◌<◌, length, IfSome};
ghost use Rattle.der_core.specs.Element.{IsBytes};
ghost use Rattle.cms_types.specs.Entering.{EntersFront};

use der_core::Cursor;
use der_core::tags::SEQUENCE;

// The contents of the first element of a list of SEQUENCEs, and a cursor at the others. `None` if there is none, which
// of a list that was read before is only so at its end.
#[inline]
pub(crate) fn enter_front<'a>(list: &Cursor<'a>) -> Option<(Cursor<'a>, Cursor<'a>)>
    ensures front { EntersFront list.now result }
    ensures octets { IsBytes list.now.rest }
    ensures shorter { IfSome result (λ x. length x.1.rest < length list.now.rest) }
{
    // Named for the proof.
    let _rest = list.rest();
    if list.is_empty() {
        return None;
    }
    let mut ahead = list.again();
    let Ok(parts) = ahead.enter(SEQUENCE) else {
        return None;
    };
    Some((parts, ahead))
}

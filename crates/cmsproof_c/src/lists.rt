ghost use Rattle.std.specs.Prelude.{◌≡◌, ◌⊎◌, Some, None, IfSome};

use crate::answers_handle::AnswersHandle;
use crate::trust_handle::TrustHandle;
use library_calls::HeldTrust;
use list_answers::Answers;
use std::alloc::Global;

/// Takes the lists out of two handles. If one of them holds none, both keep what they hold.
pub(crate) fn take_both(
    alloc: Global,
    trust: &mut TrustHandle,
    answers: &mut AnswersHandle,
) -> Option<(Box<HeldTrust>, Box<Answers>)>
    ensures taken { IfSome result (λ both. (trust.old.inside.kept ≡ Some both.0.value)
        × (answers.old.inside.kept ≡ Some both.1.value)) }
    ensures none { result ≡ None → (trust.old.inside.kept ≡ None) ⊎ (answers.old.inside.kept ≡ None) }
    ensures same { result ≡ None → (trust.new.inside.kept ≡ trust.old.inside.kept)
        × (answers.new.inside.kept ≡ answers.old.inside.kept) }
{
    let list = trust.take(alloc)?;
    match answers.take(alloc) {
        Some(asked) => Some((list, asked)),
        None => {
            *trust = TrustHandle::of(list);
            None
        }
    }
}

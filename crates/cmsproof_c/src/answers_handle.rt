ghost use Rattle.std.specs.Prelude.{◌≡◌, Some, None, IfSome, is_some, option_map};

use crate::answers_seal::AnswersSeal;
use crate::parts::Parts;
use list_answers::Answers;
use std::alloc::Global;
use std::mem;

/// An answers list that C holds, or none.
#[repr(C)]
#[derive(Drop)]
pub struct AnswersHandle {
    /// The list, if there is one.
    pub inside: AnswersSeal,
    /// Whether there is one.
    pub held: bool,
    ghost right: { held ≡ is_some inside.kept },
}

impl AnswersHandle {
    /// The handle of a list.
    pub(crate) fn of(list: Box<Answers>) -> AnswersHandle
        ensures { result.inside.kept ≡ Some list.value }
    {
        AnswersHandle {
            inside: AnswersSeal::of_parts(Parts::of(list)),
            held: true,
        }
    }

    /// The handle of this list, if there is memory.
    pub(crate) fn keep(alloc: Global, list: Answers) -> Option<AnswersHandle>
        ensures { IfSome result (λ h. h.inside.kept ≡ Some list) }
    {
        let Ok(kept) = Box::new(alloc, list) else {
            return None;
        };
        Some(AnswersHandle::of(kept))
    }

    /// The list, if there is one; the handle then holds none.
    pub(crate) fn take(&mut self, alloc: Global) -> Option<Box<Answers>>
        ensures taken { option_map (λ b. b.value) result ≡ self.old.inside.kept }
        ensures none { self.new.inside.kept ≡ None }
    {
        let none = AnswersHandle {
            inside: AnswersSeal::empty(),
            held: false,
        };
        let AnswersHandle { inside, held } = mem::replace(self, none);
        if held {
            Some(inside.into_parts(alloc).into_box())
        } else {
            None
        }
    }
}

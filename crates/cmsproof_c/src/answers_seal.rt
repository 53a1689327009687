ghost use Rattle.std.specs.Prelude.{◌≡◌, Option, Some, None, true, is_some};
ghost use Rattle.std.specs.Coded.{coded_option};
ghost use Rattle.list_answers.specs.contracts.answers.Answers.{the_row};
ghost use Rattle.cmsproof_c.specs.Kept.{kept_owns};

use crate::parts::Parts;
use list_answers::Answers;
use std::alloc::Global;
use std::marker::Model;

/// A box of an answers list, or nothing. Its field names no other type, so that C can hold it.
#[repr(C)]
#[derive(Drop)]
pub struct AnswersSeal {
    at: *mut u8,
    /// The list that the memory behind it holds.
    pub ghost kept: { Option the_row.Denot } by { coded_option the_row.coded },
}

impl Model for AnswersSeal {
    ghost also_owns = { λ s. kept_owns the_row s.at s.kept };
}

impl AnswersSeal {
    /// A seal that owns nothing.
    pub(crate) fn empty() -> AnswersSeal
        ensures { result.kept ≡ None }
    {
        AnswersSeal {
            at: std::ptr::null_mut(),
        }
    }

    /// A seal that owns what a box owned.
    pub(crate) fn of_parts(parts: Parts<Answers, Global>) -> AnswersSeal
        ensures { result.kept ≡ Some parts.value }
    {
        let Parts { ptr, alloc: _ } = parts;
        AnswersSeal { at: ptr as *mut u8 }
    }

    /// What the box owned.
    pub(crate) fn into_parts(self, alloc: Global) -> Parts<Answers, Global>
        requires { is_some self.kept ≡ true }
        ensures { Some result.value ≡ self.kept }
    {
        let AnswersSeal { at } = self;
        Parts {
            ptr: at as *mut Answers,
            alloc,
        }
    }
}

unsafe impl Send for AnswersSeal {}

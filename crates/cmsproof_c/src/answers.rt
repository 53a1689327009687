ghost use Rattle.std.specs.Prelude.{◌≡◌, None};
ghost use Rattle.library_calls.specs.Lists.{ReadsAnswers};

use crate::answers_handle::AnswersHandle;
use library_answers::{Answer, DONE, NO_MEMORY};
use library_calls::read_answers;
use std::alloc::Global;

/// Reads an answers list into a handle, and frees what it held.
#[unsafe(no_mangle)]
pub extern "C" fn cmsproof_answers_read(
    alloc: Global,
    answers: &mut AnswersHandle,
    list: &[u8],
    said: &mut Answer,
) -> u32
    // The handle vouches for the questions of the text, and for no others; or it holds none: the text is refused by the
    // rule and at the line that are said, or memory was refused.
    ensures { ReadsAnswers list.now answers.new.inside.kept said.new result }
{
    cmsproof_answers_free(alloc, answers);
    keep_in!(alloc, answers: AnswersHandle, read_answers(alloc, list, said), said)
}

/// Frees the list of a handle, if it holds one.
#[unsafe(no_mangle)]
pub extern "C" fn cmsproof_answers_free(alloc: Global, answers: &mut AnswersHandle)
    // The handle holds none.
    ensures { answers.new.inside.kept ≡ None }
{
    drop(answers.take(alloc));
}

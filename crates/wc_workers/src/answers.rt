//! Answers that are kept.

ghost use Rattle.std.specs.Prelude.{◌≡◌, IfOk};

use std::alloc::AllocError;
use wc_machine::TaskAnswer;
use wc_value::Duplicate;

/// An equal answer with memory of its own.
pub(crate) fn copy_answer(answer: &TaskAnswer) -> Result<TaskAnswer, AllocError>
    ensures { IfOk result (λ copied. copied ≡ answer.now) }
{
    match answer {
        TaskAnswer::Nothing => Ok(TaskAnswer::Nothing),
        TaskAnswer::Failed => Ok(TaskAnswer::Failed),
        TaskAnswer::Running => Ok(TaskAnswer::Running),
        TaskAnswer::Done => Ok(TaskAnswer::Done),
        TaskAnswer::Result(result) => Ok(TaskAnswer::Result(result.copy()?)),
    }
}

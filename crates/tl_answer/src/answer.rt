ghost use Rattle.std.specs.Prelude.{◌≡◌, IfOk};
ghost use Rattle.tl_isolation.specs.State.{is_refusal};

use tl_base::{Duplicate, NoMemory};
use tl_isolation::Answer;

pub fn copy_answer(answer: &Answer) -> Result<Answer, NoMemory>
    ensures { IfOk result (λ copy. copy ≡ answer.now) }
{
    Ok(match answer {
        Answer::Begun => Answer::Begun,
        Answer::Rows(rows) => Answer::Rows(rows.copy()?),
        Answer::Changed(count) => Answer::Changed(*count),
        Answer::Duplicate => Answer::Duplicate,
        Answer::Null => Answer::Null,
        Answer::Overflow => Answer::Overflow,
        Answer::Long => Answer::Long,
        Answer::Many => Answer::Many,
        Answer::Nested => Answer::Nested,
        Answer::Outside => Answer::Outside,
        Answer::Conflict(rival) => Answer::Conflict(*rival),
        Answer::Committed => Answer::Committed,
        Answer::RolledBack => Answer::RolledBack,
        Answer::Recovered(node) => Answer::Recovered(*node),
        Answer::There(node) => Answer::There(*node),
    })
}

/// Whether a statement was refused: it changed nothing, and its transaction outside BEGIN is undone.
pub fn is_refusal(answer: &Answer) -> bool
    ensures { result ≡ is_refusal answer.now }
{
    matches!(
        answer,
        Answer::Duplicate | Answer::Null | Answer::Overflow | Answer::Long | Answer::Many
    )
}

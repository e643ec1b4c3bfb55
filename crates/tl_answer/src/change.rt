ghost use Rattle.std.specs.Prelude.{◌≡◌, [], ◌∷◌, Some, Result, IfOk, OnOk, OnErr};
ghost use Rattle.tl_isolation.specs.declared.bound.Bound.TheVariants as bound;
ghost use Rattle.tl_isolation.specs.Meaning.{change_of, refusal_of, told_of};
ghost use Rattle.tl_isolation.specs.Step.{own_after};
ghost use Rattle.tl_isolation.specs.Tables.{HasTable};
ghost use Rattle.tl_journal.specs.Takes.{own_said, view_changed};
ghost use Rattle.tl_write.specs.Change.{number_of};
ghost use Rattle.tl_write.specs.Fault.{Tells};
ghost use Rattle.tl_write.specs.declared.fault.ChangeFault.{ChangeFault};
ghost use Rattle.tl_write.specs.declared.write.Effect.{Effect};
ghost use Rattle.tl_answer.specs.Own.{OwnSuits};

use crate::table::table_of;
use std::alloc::Global;
use tl_algebra::Edit;
use tl_base::NoMemory;
use tl_isolation::Answer;
use tl_schema::Catalog;
use tl_values::Rows;
use tl_write::{Buffer, ChangeFault, Effect, change};

/// What a change is answered, the count of its rows or why it is refused. The own writes are laid over the rows that
/// were read, and those of the change are kept beside them; a refused change writes nothing. Without memory the own
/// writes stay as they were.
pub fn answer_change(
    alloc: Global,
    catalog: &Catalog,
    edit: &Edit,
    rows: Rows,
    own: &mut Buffer,
) -> Result<Answer, NoMemory>
    requires table { HasTable catalog.now (number_of edit.now) }
    ensures told { OwnSuits catalog.now edit.now own.old → IfOk result (λ told. told_of (change_of catalog.now edit.now (view_changed catalog.now edit.now own.old (rows ∷ [])) own.old) ≡ Some told) }
    ensures own { OwnSuits catalog.now edit.now own.old → OnOk result (own.new ≡ own_said catalog.now (bound.Change edit.now) own.old (rows ∷ [])) }
    ensures kept { OnErr result (own.new ≡ own.old) }
{
    let number = number_of(edit);
    let table = table_of(catalog, number);
    let view = own.lay(number, table, rows)?;
    let changed = change(alloc, edit, table, &view, own);
    keep(changed, own)
}

/// The number of the table that is changed.
fn number_of(edit: &Edit) -> u8
    ensures { result ≡ number_of edit.now }
{
    match edit {
        Edit::Insert { table, rows: _ }
        | Edit::Update {
            table,
            sets: _,
            filter: _,
        }
        | Edit::Delete { table, filter: _ } => *table,
    }
}

/// Keeps what the change does, and answers it.
fn keep(changed: Result<Effect, ChangeFault>, own: &mut Buffer) -> Result<Answer, NoMemory>
    ensures told { (meant : Result Effect ChangeFault) → Tells changed meant → IfOk result (λ told. told_of meant ≡ Some told) }
    ensures own { (meant : Result Effect ChangeFault) → Tells changed meant → OnOk result (own.new ≡ own_after meant own.old) }
    ensures kept { OnErr result (own.new ≡ own.old) }
{
    match changed {
        Ok(effect) => {
            let count = effect.count;
            own.keep(effect)?;
            Ok(Answer::Changed(count))
        }
        Err(fault) => refusal(fault),
    }
}

/// What a refused change is answered.
fn refusal(fault: ChangeFault) -> Result<Answer, NoMemory>
    ensures { IfOk result (λ told. refusal_of fault ≡ Some told) }
{
    match fault {
        ChangeFault::Overflow => Ok(Answer::Overflow),
        ChangeFault::Null => Ok(Answer::Null),
        ChangeFault::Long => Ok(Answer::Long),
        ChangeFault::Duplicate => Ok(Answer::Duplicate),
        ChangeFault::Many => Ok(Answer::Many),
        ChangeFault::NoMemory => Err(NoMemory),
    }
}

//! A node reads for a statement, and says it.

ghost use Rattle.std.specs.Prelude.{◌≡◌, ◌<◌, [], ◌∷◌, IfOk, OnErr, OnOk, Some, length, slice_get};
ghost use Rattle.tl_ask.specs.Hears.{hears_manager};
ghost use Rattle.tl_answer.specs.Own.{OwnSuits};
ghost use Rattle.tl_isolation.specs.declared.bound.Bound.{Bound};
ghost use Rattle.tl_isolation.specs.declared.bound.Bound.TheVariants as bound;
ghost use Rattle.tl_isolation.specs.Tables.{HasTable};
ghost use Rattle.tl_plan.specs.Plan.{NamesTables};
ghost use Rattle.tl_manager.specs.declared.mark.Mark.TheVariants as marks;
ghost use Rattle.tl_manager.specs.declared.request.Reply.{Reply};
ghost use Rattle.tl_journal.specs.Ask.{Heard};
ghost use Rattle.tl_journal.specs.Asks.{ToIdle, course_in};
ghost use Rattle.tl_journal.specs.Node.{Node};
ghost use Rattle.tl_journal.specs.Node as law;
ghost use Rattle.tl_journal.specs.Takes.{Means, own_said};
ghost use Rattle.tl_txn.specs.Calls.{IsReady, own_in, with_own};
ghost use Rattle.tl_txn.specs.Doing.{txn_in};
ghost use Rattle.tl_txn.specs.Follows.{ReadsNeverEnd, StepsSo};
ghost use Rattle.tl_txn.specs.NodeReads.{NodeReadsAll, NodeReadsOn, NodeReadsStop};
ghost use Rattle.tl_txn.specs.declared.phase.Open.{Open};
ghost use Rattle.tl_txn.specs.declared.phase.Phase.TheVariants as phases;
ghost use Rattle.tl_write.specs.Change.{number_of};
ghost use Rattle.tl_node.specs.After.{ComesTo, IsAfter, Stays};
ghost use Rattle.tl_node.specs.Fits.{FitsReading, HasPresent, IsFit, IsOwn, TakesStatements};
ghost use Rattle.tl_node.specs.NextRead.{IsNextRead, ReadsAt, table_number};
ghost use Rattle.tl_node.specs.Present.{IsNoEnd, IsSaid};
ghost use Rattle.tl_node.specs.ReadOn.{Idles, IdlesBy, IsReadSo, ReadsFurther, SaysFound, is_nested};
ghost use Rattle.tl_node.specs.Saying.{IsAnswered, SaidFirst, SaidSo, all_rows};
ghost use Rattle.tl_node.specs.View.{node_at, node_so, stage_of};
ghost use Rattle.tl_node.specs.declared.work.Course.TheVariants as way;
ghost use Rattle.tl_node.specs.declared.work.Work.TheVariants as work;

use crate::hears::hear_floor;
use crate::kept::Core;
use crate::running::{answer_on, go_on, running};
use crate::work::{Course, Next, Reading, Stage};
use tl_algebra::Edit;
use tl_answer::{answer_change, answer_query, copy_answer};
use tl_base::{Items, NoMemory};
use tl_descriptor::Descriptor;
use tl_isolation::{Answer, Bound};
use tl_manager::{Mark, Reply, TxnStep};
use tl_txn::{Txn, transactions_follow_the_node};
use tl_values::Rows;

/// The next of the reads is begun.
pub fn read_next(statement: &Bound, txn: &mut Txn, reading: &Reading) -> Result<(), NoMemory>
    requires ready { IsReady txn.old.phase }
    requires reads { ReadsAt statement.now reading.now.at }
    requires within { reading.now.at < length reading.now.accesses }
    ensures ok { OnOk result (IsNextRead statement.now reading.now txn.old txn.new) }
    ensures err { OnErr result (txn.new ≡ txn.old) }
{
    let table = table_at(statement, reading.at);
    let access = &reading.accesses.as_slice()[reading.at];
    txn.read(table, access)
}

/// The number of the table that the access at this place is of.
fn table_at(statement: &Bound, at: usize) -> u8
    requires { ReadsAt statement.now at }
    ensures { table_number statement.now at ≡ Some result }
{
    match statement {
        Bound::Select { query } => query.from.as_slice()[at].table,
        Bound::Change { edit } => table_of_edit(edit),
        Bound::Begin => unreachable!(),
        Bound::Commit => unreachable!(),
        Bound::Rollback => unreachable!(),
        Bound::Recover { node: _ } => unreachable!(),
    }
}

fn table_of_edit(edit: &Edit) -> u8
    ensures { result ≡ number_of edit.now }
{
    match edit {
        Edit::Insert { table, rows: _ } => *table,
        Edit::Update { table, .. } => *table,
        Edit::Delete { table, .. } => *table,
    }
}

pub fn take_read(
    core: &mut Core,
    mut txn: Txn,
    stage: Stage,
    reading: Reading,
    reply: &Reply,
) -> (Mark, Result<Next, NoMemory>)
    requires { IsFit core.old (work.Runs (record { txn = txn; stage = stage; course = way.Reads reading })) }
    ensures after { IsAfter core.old.layout core.old.catalog (node_at core.old (work.Runs (record { txn = txn; stage = stage; course = way.Reads reading }))) reply.now core.new result.0 result.1 }
    ensures stays { Stays core.old core.new }
{
    reads_follow();
    match txn.heed(&core.catalog, reply) {
        Some(TxnStep::Going(mark)) => (
            mark,
            Ok(Next::Goes(running(txn, stage, Course::Reads(reading)))),
        ),
        Some(TxnStep::Ready(mark)) => (mark, read_on(core, txn, stage, reading)),
        Some(TxnStep::NoMemory(mark)) => (mark, Err(NoMemory)),
        Some(TxnStep::Leaf(_)) => (Mark::Quiet, Ok(Next::Strange)),
        Some(TxnStep::Ended(_)) => (Mark::Quiet, Ok(Next::Strange)),
        None => (Mark::Quiet, Ok(Next::Strange)),
    }
}

/// A node that reads does by the law of nodes what its transaction does with each reply.
fn reads_follow()
    ensures on { NodeReadsOn }
    ensures all { NodeReadsAll }
    ensures stop { NodeReadsStop }
    ensures never_end { ReadsNeverEnd }
    ensures steps { StepsSo }
{
    transactions_follow_the_node();
}

/// A read is done: the next one, or the answer.
fn read_on(core: &mut Core, mut txn: Txn, stage: Stage, reading: Reading) -> Result<Next, NoMemory>
    requires ready { IsReady txn.phase }
    requires own { IsOwn core.old txn }
    requires takes { TakesStatements (stage_of stage) }
    requires present { HasPresent core.old (λ statement. FitsReading core.old statement reading) }
    ensures after { (n : Node) (sound : Heard) (told : Reply) → IsReadSo core.old n sound reading txn.phase stage → ComesTo core.old.layout core.old.catalog n sound told core.new marks.Quiet result }
    ensures stays { Stays core.old core.new }
{
    let Reading {
        accesses,
        at,
        mut found,
    } = reading;
    found.push(txn.rows())?;
    let count = accesses.len();
    let at = at + 1;
    if at >= count {
        return say(core, txn, stage, found);
    }
    let reading = Reading {
        accesses,
        at,
        found,
    };
    read_further(core, txn, stage, reading)
}

fn read_further(core: &Core, mut txn: Txn, stage: Stage, reading: Reading) -> Result<Next, NoMemory>
    requires ready { IsReady txn.phase }
    requires present { HasPresent core.now (λ statement. FitsReading core.now statement reading) }
    ensures { ReadsFurther core.now txn stage reading result }
{
    let statement = core.current();
    read_next(statement, &mut txn, &reading)?;
    Ok(Next::Goes(running(txn, stage, Course::Reads(reading))))
}

/// The one request of a statement without reads is answered.
pub fn take_idle(core: &mut Core, txn: Txn, stage: Stage, reply: &Reply) -> Result<Next, NoMemory>
    requires ready { IsReady txn.phase }
    requires own { IsOwn core.old txn }
    requires present { HasPresent core.old (λ statement. course_in core.old.catalog (stage_of stage) statement ≡ ToIdle) }
    ensures after { (live : Open) → txn.phase ≡ phases.Ready live → ComesTo core.old.layout core.old.catalog (node_so core.old (law.Inside (txn_in (stage_of stage) live))) (hears_manager reply.now) reply.now core.new marks.Quiet result }
    ensures stays { Stays core.old core.new }
{
    match hear_floor(reply) {
        Some(floor) => learn_and_idle(core, txn, stage, floor),
        None => Ok(Next::Strange),
    }
}

fn learn_and_idle(
    core: &mut Core,
    txn: Txn,
    stage: Stage,
    floor: &Descriptor,
) -> Result<Next, NoMemory>
    requires ready { IsReady txn.phase }
    requires own { IsOwn core.old txn }
    requires present { HasPresent core.old IsNoEnd }
    ensures after { IdlesBy core.old floor.now txn stage core.new result }
    ensures stays { Stays core.old core.new }
{
    core.learn(core.home(), floor)?;
    say_idle(core, txn, stage)
}

/// BEGIN and RECOVER are answered; another statement is said.
fn say_idle(core: &mut Core, txn: Txn, stage: Stage) -> Result<Next, NoMemory>
    requires ready { IsReady txn.phase }
    requires own { IsOwn core.old txn }
    requires present { HasPresent core.old IsNoEnd }
    ensures after { Idles core.old txn stage core.new result }
    ensures kept { OnErr result (core.new.answers.items ≡ core.old.answers.items) }
    ensures rest { core.new ≡ record core.old { answers = core.new.answers } }
{
    let statement = core.current();
    if is_nested(statement) {
        return answer_on(core, Answer::Nested, txn, stage);
    }
    let found = Items::new(core.alloc);
    say(core, txn, stage, found)
}

/// Whether it is answered, and not said, in a transaction that is open.
fn is_nested(statement: &Bound) -> bool
    ensures { result ≡ is_nested statement.now }
{
    matches!(statement, Bound::Begin | Bound::Recover { node: _ })
}

/// All is read: the statement is said.
fn say(core: &mut Core, mut txn: Txn, stage: Stage, found: Items<Rows>) -> Result<Next, NoMemory>
    requires ready { IsReady txn.phase }
    requires own { IsOwn core.old txn }
    requires present { HasPresent core.old IsSaid }
    ensures after { SaysFound core.old txn stage found core.new result }
    ensures kept { OnErr result (core.new.answers.items ≡ core.old.answers.items) }
    ensures rest { core.new ≡ record core.old { answers = core.new.answers } }
{
    let answer = answer_present(core, &mut txn, found)?;
    said(core, txn, stage, answer)
}

/// In a transaction that BEGIN opened the statement is answered; else its answer waits for the end.
fn said(core: &mut Core, txn: Txn, stage: Stage, answer: Answer) -> Result<Next, NoMemory>
    requires ready { IsReady txn.phase }
    requires own { IsOwn core.old txn }
    ensures after { SaidSo stage core.old answer txn.phase core.new result }
    ensures rest { core.new ≡ record core.old { answers = core.new.answers } }
{
    match stage {
        Stage::Opened => answer_on(core, answer, txn, Stage::Opened),
        Stage::Fresh | Stage::Answering(_) => say_first(core, txn, answer),
    }
}

/// The answer waits for the end of the transaction.
fn say_first(core: &Core, txn: Txn, answer: Answer) -> Result<Next, NoMemory>
    requires ready { IsReady txn.phase }
    requires own { IsOwn core.now txn }
    ensures { SaidFirst core.now answer txn.phase core.now result }
{
    let told = copy_answer(&answer)?;
    let said = core.said(told, false)?;
    let work = go_on(core, core.answers.len(), txn, Stage::Answering(answer))?;
    Ok(Next::Says(work, said))
}

/// What the present statement is answered by what was found; a change leaves its writes in the transaction.
fn answer_present(core: &Core, txn: &mut Txn, found: Items<Rows>) -> Result<Answer, NoMemory>
    requires ready { IsReady txn.old.phase }
    requires present { HasPresent core.now IsSaid }
    ensures told { (statement : Bound) → slice_get core.now.statements (length core.now.answers.items) ≡ Some statement → IfOk result (λ told. IsAnswered core.now.catalog statement found txn.old txn.new told) }
    ensures rest { txn.new ≡ record txn.old { phase = with_own txn.old.phase (own_in txn.new.phase) } }
{
    let statement = core.current();
    answer_statement(core, statement, txn, found)
}

fn answer_statement(
    core: &Core,
    statement: &Bound,
    txn: &mut Txn,
    found: Items<Rows>,
) -> Result<Answer, NoMemory>
    requires ready { IsReady txn.old.phase }
    requires said { IsSaid statement.now }
    requires named { NamesTables core.now.catalog statement.now }
    ensures told { IfOk result (λ told. IsAnswered core.now.catalog statement.now found txn.old txn.new told) }
    ensures rest { txn.new ≡ record txn.old { phase = with_own txn.old.phase (own_in txn.new.phase) } }
{
    match statement {
        Bound::Select { query } => {
            answer_query(core.alloc, &core.catalog, query, found, txn.own())
        }
        Bound::Change { edit } => {
            let rows = all_rows(core, found)?;
            answer_edit(core, edit, rows, txn)
        }
        Bound::Begin => unreachable!(),
        Bound::Commit => unreachable!(),
        Bound::Rollback => unreachable!(),
        Bound::Recover { node: _ } => unreachable!(),
    }
}

/// What a change is answered; its writes are kept in the transaction.
fn answer_edit(core: &Core, edit: &Edit, rows: Rows, txn: &mut Txn) -> Result<Answer, NoMemory>
    requires ready { IsReady txn.old.phase }
    requires table { HasTable core.now.catalog (number_of edit.now) }
    ensures told { OwnSuits core.now.catalog edit.now (own_in txn.old.phase) → IfOk result (λ told. Means core.now.catalog (bound.Change edit.now) (own_in txn.old.phase) (rows ∷ []) told) }
    ensures own { OwnSuits core.now.catalog edit.now (own_in txn.old.phase) → OnOk result (own_in txn.new.phase ≡ own_said core.now.catalog (bound.Change edit.now) (own_in txn.old.phase) (rows ∷ [])) }
    ensures rest { txn.new ≡ record txn.old { phase = with_own txn.old.phase (own_in txn.new.phase) } }
{
    answer_change(core.alloc, &core.catalog, edit, rows, txn.buffer())
}

/// The rows of all reads of a change, in their order.
fn all_rows(core: &Core, found: Items<Rows>) -> Result<Rows, NoMemory>
    ensures { IfOk result (λ rows. rows ≡ all_rows found) }
{
    let mut all = Rows::new(core.alloc);
    for rows in found.into_vec() {
        all.append(rows)?;
    }
    Ok(all)
}

//! A node in a transaction: it begins, and its statements are opened.

ghost use Rattle.std.specs.Prelude.{◌≡◌, ◌<◌, true, false, nat_le, IfOk, Some, length, slice_get};
ghost use Rattle.std.specs.Option.{option_copied};
ghost use Rattle.tl_descriptor.specs.Tids.{TidSet};
ghost use Rattle.tl_isolation.specs.declared.bound.Bound.{Bound};
ghost use Rattle.tl_plan.specs.Plan.{NamesTables, accesses_in};
ghost use Rattle.tl_journal.specs.Asks.{ToIdle, ToCommit, ToGiveUp, course_in, other_manager, reading_course};
ghost use Rattle.tl_journal.specs.Node as law;
ghost use Rattle.tl_journal.specs.Reads.{all_reads, begin_reads};
ghost use Rattle.tl_txn.specs.Calls.{IsReady, own_in};
ghost use Rattle.tl_node.specs.After.{ComesTo, IsAfter, Opens, Stays};
ghost use Rattle.tl_node.specs.Begun.{AnswersOn, Enters, EntersBy, HasBegun, began_floor, began_mark};
ghost use Rattle.tl_node.specs.Fits.{HasPresent, IsFit, IsOwn, TakesStatements};
ghost use Rattle.tl_node.specs.Hears.{manager_says};
ghost use Rattle.tl_node.specs.Leads.{Leads, is_at_once};
ghost use Rattle.tl_node.specs.Present.{is_begin};
ghost use Rattle.tl_node.specs.View.{node_at, node_so, stage_of};
ghost use Rattle.tl_node.specs.declared.work.Course.TheVariants as way;
ghost use Rattle.tl_node.specs.declared.work.Stage.TheVariants as stages;
ghost use Rattle.tl_node.specs.declared.work.Work.TheVariants as work;

use crate::ends::{take_end, take_other};
use crate::kept::Core;
use crate::reads::{read_next, take_idle, take_read};
use crate::work::{Course, Next, Outside, Reading, Running, Stage, Work};
use tl_answer::is_refusal;
use tl_ask::ask_manager;
use tl_base::{Duplicate, Items, NoMemory};
use tl_descriptor::Descriptor;
use tl_isolation::{Answer, Bound};
use tl_manager::{ManagerReply, ManagerRequest, Mark, Reply, TxnStep};
use tl_plan::{Accesses, make_plan};
use tl_txn::Txn;

pub fn running(txn: Txn, stage: Stage, course: Course) -> Work
    ensures { result ≡ work.Runs (record { txn = txn; stage = stage; course = course }) }
{
    Work::Runs(Running { txn, stage, course })
}

pub fn take_running(core: &mut Core, run: Running, reply: &Reply) -> (Mark, Result<Next, NoMemory>)
    requires { IsFit core.old (work.Runs run) }
    ensures after { IsAfter core.old.layout core.old.catalog (node_at core.old (work.Runs run)) reply.now core.new result.0 result.1 }
    ensures stays { Stays core.old core.new }
{
    let Running { txn, stage, course } = run;
    match course {
        Course::Begins => take_begin(core, txn, reply),
        Course::Reads(reading) => take_read(core, txn, stage, reading, reply),
        Course::Idles(_) => (Mark::Quiet, take_idle(core, txn, stage, reply)),
        Course::AsksOther { manager, asked } => {
            (
                Mark::Quiet,
                take_other(core, txn, stage, manager, asked, reply),
            )
        }
        Course::Ends(last) => take_end(core, txn, stage, last, reply),
    }
}

pub fn take_begin(core: &mut Core, mut txn: Txn, reply: &Reply) -> (Mark, Result<Next, NoMemory>)
    requires { IsFit core.old (work.Runs (record { txn = txn; stage = stages.Fresh; course = way.Begins })) }
    ensures after { IsAfter core.old.layout core.old.catalog (node_at core.old (work.Runs (record { txn = txn; stage = stages.Fresh; course = way.Begins }))) reply.now core.new result.0 result.1 }
    ensures stays { Stays core.old core.new }
{
    match txn.heed(&core.catalog, reply) {
        Some(TxnStep::Going(mark)) => (
            mark,
            Ok(Next::Goes(running(txn, Stage::Fresh, Course::Begins))),
        ),
        Some(TxnStep::Ready(mark)) => (mark, begun(core, txn, reply)),
        Some(TxnStep::NoMemory(mark)) => (mark, Err(NoMemory)),
        Some(TxnStep::Leaf(_)) => (Mark::Quiet, Ok(Next::Strange)),
        Some(TxnStep::Ended(_)) => (Mark::Quiet, Ok(Next::Strange)),
        None => (Mark::Quiet, Ok(Next::Strange)),
    }
}

/// The transaction has begun.
fn begun(core: &mut Core, txn: Txn, reply: &Reply) -> Result<Next, NoMemory>
    requires present { HasPresent core.old (λ statement. Unit {0}) }
    requires own { IsOwn core.old txn }
    requires begun { HasBegun txn reply.now }
    ensures after { (seen : TidSet) → ComesTo core.old.layout core.old.catalog (node_so core.old (law.Noted seen)) (manager_says reply.now) reply.now core.new (began_mark reply.now) result }
    ensures stays { Stays core.old core.new }
{
    match hear_began(reply) {
        Some(floor) => learn_and_enter(core, txn, floor),
        None => Ok(Next::Strange),
    }
}

/// The low-water mark of the manager that gave a number; `None` where the reply gives none.
fn hear_began(reply: &Reply) -> Option<&Descriptor>
    ensures { option_copied result ≡ began_floor (manager_says reply.now) }
{
    match reply {
        Reply::Manager(
            ManagerReply::Began {
                tid: _,
                snapshot: _,
                floor,
            },
        ) => Some(floor),
        Reply::Manager(_) | Reply::Store(_) => None,
    }
}

fn learn_and_enter(core: &mut Core, txn: Txn, floor: &Descriptor) -> Result<Next, NoMemory>
    requires ready { IsReady txn.phase }
    requires own { IsOwn core.old txn }
    ensures after { (statement : Bound) → slice_get core.old.statements (length core.old.answers.items) ≡ Some statement → EntersBy statement core.old floor.now txn.phase core.new result }
    ensures stays { Stays core.old core.new }
{
    core.learn(core.home(), floor)?;
    enter(core, txn)
}

/// BEGIN is answered at once; another statement is opened.
fn enter(core: &mut Core, txn: Txn) -> Result<Next, NoMemory>
    requires ready { IsReady txn.phase }
    requires own { IsOwn core.old txn }
    ensures after { (statement : Bound) → slice_get core.old.statements (length core.old.answers.items) ≡ Some statement → Enters statement core.old txn.phase core.new result }
    ensures rest { core.new ≡ record core.old { answers = core.new.answers } }
{
    let Some(statement) = core.present() else {
        return Ok(Next::Strange);
    };
    if is_begin(statement) {
        return answer_on(core, Answer::Begun, txn, Stage::Opened);
    }
    let work = go_on(core, core.answers.len(), txn, Stage::Fresh)?;
    Ok(Next::Goes(work))
}

fn is_begin(statement: &Bound) -> bool
    ensures { result ≡ is_begin statement.now }
{
    matches!(statement, Bound::Begin)
}

/// Answers the present statement; the transaction goes on with the next one.
pub fn answer_on(core: &mut Core, answer: Answer, txn: Txn, stage: Stage) -> Result<Next, NoMemory>
    requires ready { IsReady txn.phase }
    requires own { IsOwn core.old txn }
    ensures after { AnswersOn core.old answer txn.phase stage core.new result }
    ensures rest { core.new ≡ record core.old { answers = core.new.answers } }
{
    let said = core.prepare(&answer)?;
    let work = go_on(core, core.answers.len() + 1, txn, stage)?;
    core.answers.push_reserved(answer);
    Ok(Next::Says(work, said))
}

/// The transaction goes on with the statement at this place of the session, from 0; there is nothing to do where there
/// is none.
pub fn go_on(core: &Core, at: usize, txn: Txn, stage: Stage) -> Result<Work, NoMemory>
    requires ready { IsReady txn.phase }
    requires own { IsOwn core.now txn }
    ensures { IfOk result (λ w. Opens core.now at txn.phase stage w) }
{
    let Some(statement) = core.statements.get(at) else {
        return Ok(Work::Outside(Outside::Done));
    };
    let work = open(core, statement, txn, stage)?;
    Ok(work)
}

fn open(core: &Core, statement: &Bound, txn: Txn, stage: Stage) -> Result<Work, NoMemory>
    requires named { NamesTables core.now.catalog statement.now }
    requires ready { IsReady txn.phase }
    requires own { IsOwn core.now txn }
    ensures { IfOk result (λ w. Leads core.now statement.now txn.phase stage w) }
{
    match stage {
        Stage::Answering(answer) => {
            let work = end_with(core, txn, answer)?;
            Ok(work)
        }
        Stage::Fresh => {
            let work = open_statement(core, statement, txn, Stage::Fresh)?;
            Ok(work)
        }
        Stage::Opened => {
            let work = open_statement(core, statement, txn, Stage::Opened)?;
            Ok(work)
        }
    }
}

/// A transaction of one statement commits once it is said, or gives up where it was refused.
fn end_with(core: &Core, txn: Txn, answer: Answer) -> Result<Work, NoMemory>
    requires ready { IsReady txn.phase }
    requires own { IsOwn core.now txn }
    ensures { IfOk result (λ w. (statement : Bound) → Leads core.now statement txn.phase (stages.Answering answer) w) }
{
    if is_refusal(&answer) {
        let work = give_up(core, txn, Stage::Answering(answer))?;
        Ok(work)
    } else {
        let work = commit(core, txn, Stage::Answering(answer))?;
        Ok(work)
    }
}

/// A statement that is no end of the transaction goes on by its reads; BEGIN and RECOVER have none.
fn open_statement(core: &Core, statement: &Bound, txn: Txn, stage: Stage) -> Result<Work, NoMemory>
    requires named { NamesTables core.now.catalog statement.now }
    requires ready { IsReady txn.phase }
    requires own { IsOwn core.now txn }
    requires takes { TakesStatements (stage_of stage) }
    ensures { IfOk result (λ w. Leads core.now statement.now txn.phase stage w) }
{
    match statement {
        Bound::Commit => {
            let work = commit(core, txn, stage)?;
            Ok(work)
        }
        Bound::Rollback => {
            let work = give_up(core, txn, stage)?;
            Ok(work)
        }
        _ => {
            let work = open_reads(core, statement, txn, stage)?;
            Ok(work)
        }
    }
}

fn idle(core: &Core, txn: Txn, stage: Stage) -> Result<Work, NoMemory>
    requires ready { IsReady txn.phase }
    requires own { IsOwn core.now txn }
    ensures { IfOk result (λ w. (statement : Bound) → course_in core.now.catalog (stage_of stage) statement ≡ ToIdle → Leads core.now statement txn.phase stage w) }
{
    let seen = txn.snapshot().copy()?;
    let asked = core.ask_floor(seen);
    Ok(running(txn, stage, Course::Idles(asked)))
}

fn open_reads(core: &Core, statement: &Bound, txn: Txn, stage: Stage) -> Result<Work, NoMemory>
    requires named { NamesTables core.now.catalog statement.now }
    requires ready { IsReady txn.phase }
    requires own { IsOwn core.now txn }
    requires takes { TakesStatements (stage_of stage) }
    requires to { course_in core.now.catalog (stage_of stage) statement.now ≡ reading_course (begin_reads (all_reads core.now.catalog statement.now)) }
    ensures { IfOk result (λ w. Leads core.now statement.now txn.phase stage w) }
{
    let accesses = accesses_of(core, statement)?;
    if accesses.is_empty() {
        let work = idle(core, txn, stage)?;
        return Ok(work);
    }
    read_first(core, statement, txn, stage, accesses)
}

/// The accesses of its reads.
fn accesses_of(core: &Core, statement: &Bound) -> Result<Accesses, NoMemory>
    requires { NamesTables core.now.catalog statement.now }
    ensures { IfOk result (λ accesses. accesses ≡ accesses_in core.now.catalog statement.now) }
{
    let plan = make_plan(core.alloc, statement, &core.catalog)?;
    Ok(plan.accesses)
}

fn read_first(
    core: &Core,
    statement: &Bound,
    mut txn: Txn,
    stage: Stage,
    accesses: Accesses,
) -> Result<Work, NoMemory>
    requires ready { IsReady txn.phase }
    requires own { IsOwn core.now txn }
    requires takes { TakesStatements (stage_of stage) }
    requires to { course_in core.now.catalog (stage_of stage) statement.now ≡ reading_course (begin_reads (all_reads core.now.catalog statement.now)) }
    requires accesses { accesses ≡ accesses_in core.now.catalog statement.now }
    requires some { 0 < length accesses }
    ensures { IfOk result (λ w. Leads core.now statement.now txn.phase stage w) }
{
    let found = Items::new(core.alloc);
    let reading = Reading {
        accesses,
        at: 0,
        found,
    };
    read_next(statement, &mut txn, &reading)?;
    Ok(running(txn, stage, Course::Reads(reading)))
}

fn give_up(core: &Core, mut txn: Txn, stage: Stage) -> Result<Work, NoMemory>
    requires ready { IsReady txn.phase }
    requires own { IsOwn core.now txn }
    ensures { IfOk result (λ w. (statement : Bound) → course_in core.now.catalog (stage_of stage) statement ≡ ToGiveUp → Leads core.now statement txn.phase stage w) }
{
    txn.rollback()?;
    Ok(running(txn, stage, Course::Ends(None)))
}

/// Where there are other managers and something to store, one of them is asked for its low-water mark first.
fn commit(core: &Core, txn: Txn, stage: Stage) -> Result<Work, NoMemory>
    requires ready { IsReady txn.phase }
    requires own { IsOwn core.now txn }
    ensures { IfOk result (λ w. (statement : Bound) → course_in core.now.catalog (stage_of stage) statement ≡ ToCommit → Leads core.now statement txn.phase stage w) }
{
    if is_at_once(core, &txn) {
        let work = commit_at_once(core, txn, stage)?;
        Ok(work)
    } else {
        let work = ask_other(core, txn, stage)?;
        Ok(work)
    }
}

fn is_at_once(core: &Core, txn: &Txn) -> bool
    requires ready { IsReady txn.now.phase }
    ensures { result ≡ is_at_once core.now.layout (own_in txn.now.phase) }
{
    txn.own().len() == 0 || core.layout.managers() <= 1
}

fn commit_at_once(core: &Core, mut txn: Txn, stage: Stage) -> Result<Work, NoMemory>
    requires ready { IsReady txn.phase }
    requires own { IsOwn core.now txn }
    requires once { is_at_once core.now.layout (own_in txn.phase) ≡ true }
    ensures { IfOk result (λ w. (statement : Bound) → course_in core.now.catalog (stage_of stage) statement ≡ ToCommit → Leads core.now statement txn.phase stage w) }
{
    txn.commit(core.floors.least())?;
    Ok(running(txn, stage, Course::Ends(None)))
}

fn ask_other(core: &Core, txn: Txn, stage: Stage) -> Result<Work, NoMemory>
    requires ready { IsReady txn.phase }
    requires own { IsOwn core.now txn }
    requires other { is_at_once core.now.layout (own_in txn.phase) ≡ false }
    ensures { IfOk result (λ w. (statement : Bound) → course_in core.now.catalog (stage_of stage) statement ≡ ToCommit → Leads core.now statement txn.phase stage w) }
{
    let manager = other_manager(core);
    let seen = txn.snapshot().copy()?;
    let asked = ask_manager(core.layout, manager, ManagerRequest::Floor { seen });
    Ok(running(txn, stage, Course::AsksOther { manager, asked }))
}

/// The other managers are asked in turn.
fn other_manager(core: &Core) -> u8
    ensures { nat_le core.now.layout.managers 1 ≡ false → result ≡ other_manager core.now.layout (node_so core.now law.Outside) }
{
    let managers = core.layout.managers();
    if managers <= 1 {
        return core.home();
    }
    let step = (core.asked_others % u64::from(managers - 1)) as u8;
    (core.home() + 1 + step) % managers
}

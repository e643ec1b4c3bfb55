//! The log cell of a transaction that was left.

ghost use Rattle.std.specs.Prelude.{◌≡◌, Some};
ghost use Rattle.tl_journal.specs.Ask.{Log};
ghost use Rattle.tl_ask.specs.Hears.{hears_log};
ghost use Rattle.tl_recover.specs.Heeds.{Gives};
ghost use Rattle.tl_recover.specs.Taken.{by_flag, is_odd_log, takes_log};

use crate::after::{After, strange};
use crate::finishing::finishing;
use crate::phase::Lost;
use crate::stripping::stripping;
use std::alloc::Global;
use tl_ask::{Layout, LogCell, hear_log};
use tl_base::{NoMemory, Tid};
use tl_logrec::Flag;
use tl_manager::Reply;
use tl_schema::Catalog;

/// Whether it is the log cell of another transaction.
fn is_odd(tid: Tid, log: &LogCell) -> bool
    ensures { result ≡ is_odd_log tid log.now }
{
    log.entry.tid != tid
}

fn by_flag(alloc: Global, layout: Layout, lost: Lost, log: LogCell) -> Result<After, NoMemory>
    ensures { Gives layout (by_flag lost log log.entry.flag) result }
{
    match log.entry.flag {
        Flag::Trying => stripping(alloc, layout, lost, log, 0),
        Flag::Decided => finishing(alloc, layout, lost, true),
        Flag::Undone => finishing(alloc, layout, lost, false),
    }
}

fn takes_cell(alloc: Global, layout: Layout, lost: Lost, log: LogCell) -> Result<After, NoMemory>
    ensures { Gives layout (takes_log lost (Log (Some log))) result }
{
    if is_odd(lost.tid.get(), &log) {
        return Ok(strange());
    }
    by_flag(alloc, layout, lost, log)
}

pub fn takes_log(
    alloc: Global,
    catalog: &Catalog,
    layout: Layout,
    lost: Lost,
    reply: &Reply,
) -> Result<After, NoMemory>
    ensures { Gives layout (takes_log lost (hears_log catalog.now reply.now)) result }
{
    match hear_log(alloc, catalog, reply)? {
        Some(Some(log)) => takes_cell(alloc, layout, lost, log),
        Some(None) => finishing(alloc, layout, lost, false),
        None => Ok(strange()),
    }
}

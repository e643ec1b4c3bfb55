//! The printed text of a run.

ghost use Rattle.std.specs.Prelude.{◌≡◌, IfOk};
ghost use Rattle.std.specs.List.{AllByRecursion};
ghost use Rattle.tl_isolation.specs.Tables.{HasTable};
ghost use Rattle.tl_base.specs.declared.place.Settings.{Settings};
ghost use Rattle.tl_journal.specs.Journal.{entries_told};
ghost use Rattle.tl_journal.specs.Law.{IsRun};
ghost use Rattle.tl_render.specs.Printed.{printed};
ghost use Rattle.tl_render.specs.Stored.{IsOfRun};

use crate::session::push_sessions;
use crate::stored::final_rows;
use crate::table::push_tables;
use std::alloc::Global;
use tl_base::{Bytes, NoMemory};
use tl_isolation::Script;
use tl_journal::Journal;

/// The printed text: each session with its answers, and each table after all commits. The rows are those that the
/// store shows at the end of the run. The opening rows are of tables of the catalog, and the journal is that of a run of
/// the script.
pub fn render(alloc: Global, script: &Script, journal: &Journal) -> Result<Bytes, NoMemory>
    requires tables { AllByRecursion (λ o. HasTable script.now.catalog o.table) script.now.rows }
    requires run { IsOfRun script.now journal.now.events }
    ensures { IfOk result (λ text. (settings : Settings) → IsRun script.now settings journal.now.events
        → text ≡ printed script.now settings (entries_told journal.now.events)) }
{
    let events = journal.events.as_slice();
    let mut text = Bytes::new(alloc);
    push_sessions(&mut text, script.sessions.as_slice(), events)?;
    let rows = final_rows(alloc, script, events)?;
    push_tables(&mut text, script.catalog.tables.as_slice(), &rows)?;
    Ok(text)
}

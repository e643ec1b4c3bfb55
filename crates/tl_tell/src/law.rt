ghost use Rattle.tl_tell.specs.Promise.{RunsAreOneHistory};

use tl_journal::{every_journal_is_one_history, runs_are_complete};

/// What stands of each run, by the laws of the crates below. There is no code here.
pub fn every_run_is_one_history()
    ensures { RunsAreOneHistory }
{
    every_journal_is_one_history();
    runs_are_complete();
}

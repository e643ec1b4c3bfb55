ghost use Rattle.tl_journal.specs.Clashes.{RivalsStand};
ghost use Rattle.tl_journal.specs.Law.{EachIsMended, FirstCommits, NothingStrange, OneHistory, OwnRowsStandUnderKeys, SpeaksScript, SpeaksWhole, StoreStands};
ghost use Rattle.tl_journal.specs.Recovered.{RecoveriesAreWhole};
ghost use Rattle.tl_journal.specs.Promises.{AnswersAll, NeverConflicts};
ghost use Rattle.tl_journal.specs.Strange.{HeardAsSaid, StopsAlike, StopsAtStrange};

use tl_isolation::histories_keep_their_promises;

/// Every journal of a script: whatever the turns of the nodes' requests, whichever nodes vanish between any two and
/// whoever recovers them.
pub fn every_journal_is_one_history()
    ensures history { OneHistory }
    ensures speaks { SpeaksScript }
    ensures whole { SpeaksWhole }
    ensures stands { StoreStands }
    ensures mended { EachIsMended }
    ensures first { FirstCommits }
    ensures heeded { NothingStrange }
    ensures own { OwnRowsStandUnderKeys }
    ensures recovered { RecoveriesAreWhole }
    ensures rivals { RivalsStand }
{}

/// What a run that has come to its end promises besides being one history.
pub fn runs_are_complete()
    ensures answers { AnswersAll }
    ensures alone { NeverConflicts }
{
    every_journal_is_one_history();
    histories_keep_their_promises();
}

/// At a strange reply a node stops, and of any other it hears what the reply says.
pub fn strange_replies_stop()
    ensures stops { StopsAtStrange }
    ensures heard { HeardAsSaid }
    ensures alike { StopsAlike }
{}

ghost use Rattle.tl_txn.specs.Follows.{BeginsSo, CommitsAtOnce, CommitsNothing, EndsSo, GivesUp, GoesOn, HearsCommits, HearsSo, HearsStores, KeepsSo, ReadsAll, ReadsNeverEnd, ReadsOn, ReadsStop, StartsAccesses, StartsCommits, StartsReads, StepsNotOdd, StepsSo, StopsSo, TellsSo};
ghost use Rattle.tl_txn.specs.NodeReads.{NodeReadsAll, NodeReadsOn, NodeReadsStop};
ghost use Rattle.tl_txn.specs.Thinned.{DoThin};

/// A node that runs a transaction does by the law of nodes what the transaction does with each reply.
pub fn transactions_follow_the_node()
    ensures keeps { KeepsSo }
    ensures thin { DoThin }
    ensures going { GoesOn }
    ensures said { TellsSo }
    ensures begun { BeginsSo }
    ensures ended { EndsSo }
    ensures strange { StopsSo }
    ensures not_odd { StepsNotOdd }
    ensures steps { StepsSo }
    ensures hears { HearsSo }
    ensures hears_commits { HearsCommits }
    ensures hears_stores { HearsStores }
    ensures reads_on { ReadsOn }
    ensures reads_all { ReadsAll }
    ensures reads_stop { ReadsStop }
    ensures reads_never_end { ReadsNeverEnd }
    ensures node_reads_on { NodeReadsOn }
    ensures node_reads_all { NodeReadsAll }
    ensures node_reads_stop { NodeReadsStop }
    ensures starts_reads { StartsReads }
    ensures starts_accesses { StartsAccesses }
    ensures starts_commits { StartsCommits }
    ensures commits_at_once { CommitsAtOnce }
    ensures commits_nothing { CommitsNothing }
    ensures gives_up { GivesUp }
{}

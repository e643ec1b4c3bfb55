//! The protocol as a pure machine: record cells, log cells, the commits cell, managers and nodes, the moves that nodes
//! make, and the law of every run of them. There is no code here; what the nodes do in code is proved to be these moves.
#![tactic(auto)]

ghost use Rattle.tl_protocol.specs.Law.{EachIsMended, NodesKnow, OneHistory, StoreStands};

/// Whatever the nodes ask in whatever order, whichever of them vanish and whoever recovers them.
pub fn every_run_is_one_history()
    ensures history { OneHistory }
    ensures stands { StoreStands }
    ensures knows { NodesKnow }
    ensures mended { EachIsMended }
{}

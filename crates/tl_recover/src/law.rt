ghost use Rattle.std.specs.Prelude.{◌≡◌, ℕ, List, ◌∷◌};
ghost use Rattle.tl_base.specs.declared.node.NodeSet.{NodeSet};
ghost use Rattle.tl_journal.specs.Node.{nodes_in};
ghost use Rattle.tl_recover.specs.Follows.{Awaits, Begins, Ends, GoesOn, GoesOnOrEnds, HasDuty, IsStrangeAlike, OwesAll, StepsNotOdd};
ghost use Rattle.tl_recover.specs.Taken.{duties_after};

/// Behind the first of the duties that are left, those are left that are after it.
pub fn duties_go_on()
    ensures first { (all : NodeSet) (d : ℕ) (left : List ℕ) → nodes_in all ≡ d ∷ left → left ≡ duties_after d all }
    ensures next { (all : NodeSet) (d e : ℕ) (left : List ℕ) → duties_after d all ≡ e ∷ left → left ≡ duties_after e all }
{}

/// As far as it recovers others, a node does what the code of a recovery does.
pub fn recoveries_follow_the_node()
    ensures duty { HasDuty }
    ensures begins { Begins }
    ensures goes_on { GoesOn }
    ensures awaits { Awaits }
    ensures ends { Ends }
    ensures steps { GoesOnOrEnds }
    ensures strange { IsStrangeAlike }
    ensures not_odd { StepsNotOdd }
    ensures owed { OwesAll }
{}

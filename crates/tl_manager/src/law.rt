ghost use Rattle.std.specs.Prelude.{◌≡◌, ℕ, List, [], ◌∷◌, ◌++◌, None, true, length, take, ◌≤◌};
ghost use Rattle.std.specs.List.{AllByRecursion};
ghost use Rattle.tl_base.specs.declared.node.NodeSet.{NodeSet};
ghost use Rattle.tl_descriptor.specs.Tids.{IsCanonical, TidSet, begins};
ghost use Rattle.tl_manager.specs.Floor.{IsChain, floor_of};
ghost use Rattle.tl_manager.specs.State.{ManagerState, next_of, reply_of};
ghost use Rattle.tl_manager.specs.Serves.{Call, Matches, Serves, ServesAll, begun, brought, given, notice_after};
ghost use Rattle.tl_manager.specs.Transactions.{snapshots_of};
ghost use Rattle.tl_manager.specs.declared.active.Active.{Active};
ghost use Rattle.tl_manager.specs.declared.request.ManagerReply.TheVariants as reply;
ghost use Rattle.tl_manager.specs.declared.request.ManagerRequest.{ManagerRequest};
ghost use Rattle.tl_manager.specs.declared.request.ManagerRequest.TheVariants as request;

/// A manager whose state is what its log says answers each request as the log calls for, and its next state is what
/// the log says with this call. So a log that grows by a manager's calls is one that the manager serves. A notice that
/// was given is there no longer.
pub fn served_calls_follow_the_log()
    ensures follows { (log : List Call) (state : ManagerState) (request : ManagerRequest) → Matches log state
        → Serves log (record { request = request; reply = reply_of state request }) }
    ensures goes_on { (log : List Call) (state : ManagerState) (request : ManagerRequest) → Matches log state
        → Matches (log ++ record { request = request; reply = reply_of state request } ∷ []) (next_of state request) }
    ensures grows { (log : List Call) (state : ManagerState) (request : ManagerRequest) → Matches log state → ServesAll log
        → ServesAll (log ++ record { request = request; reply = reply_of state request } ∷ []) }
    ensures given_once { (log : List Call) (node : ℕ) (also : NodeSet)
        → notice_after (log ++ record { request = request.Claim node; reply = reply.Given also } ∷ []) node ≡ None }
{}

/// The numbers of the transactions that began are the first of those that were brought, in order.
pub fn numbers_are_given_in_order()
    ensures first { (log : List Call) → ServesAll log → given log ≡ take (length (begun log)) (brought log) }
    ensures enough { (log : List Call) → ServesAll log → length (begun log) ≤ length (brought log) }
{}

/// The low-water mark begins the copy, and each active snapshot where of any two of them one begins the other. A new
/// transaction, whose snapshot is the copy, leaves it as it is.
pub fn floor_begins_all()
    ensures copy { (copy : TidSet) (active : List Active) → AllByRecursion IsCanonical (copy ∷ snapshots_of active) → begins (floor_of copy active) copy ≡ true }
    ensures snapshots { (copy : TidSet) (active : List Active) → AllByRecursion IsCanonical (copy ∷ snapshots_of active) → IsChain (copy ∷ snapshots_of active)
        → AllByRecursion (λ snapshot. begins (floor_of copy active) snapshot ≡ true) (snapshots_of active) }
    ensures stays { (copy : TidSet) (active : List Active) (tid node : ℕ) → AllByRecursion IsCanonical (copy ∷ snapshots_of active)
        → floor_of copy (active ++ record { tid = tid; node = node; snapshot = copy } ∷ []) ≡ floor_of copy active }
{}

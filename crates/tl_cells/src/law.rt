ghost use Rattle.std.specs.Prelude.{ℕ, List, [], ◌∷◌, ◌++◌};
ghost use Rattle.tl_base.specs.declared.store.StoreRequest.{StoreRequest};
ghost use Rattle.tl_cells.specs.Cells.{ShardState, reply_of, next_of};
ghost use Rattle.tl_cells.specs.Serves.{Call, Serves, ServesAll, Matches};

/// A shard whose state is what its log says answers each request as the log calls for, and its next state is
/// what the log says with this call. So a log that grows by a shard's calls is one that the shard serves.
pub fn served_calls_follow_the_log()
    ensures follows { (opening : ℕ) (log : List Call) (state : ShardState) (request : StoreRequest) → Matches opening log state
        → Serves opening log (record { request = request; reply = reply_of state request }) }
    ensures goes_on { (opening : ℕ) (log : List Call) (state : ShardState) (request : StoreRequest) → Matches opening log state
        → Matches opening (log ++ record { request = request; reply = reply_of state request } ∷ []) (next_of state request) }
    ensures grows { (opening : ℕ) (log : List Call) (state : ShardState) (request : StoreRequest) → Matches opening log state → ServesAll opening log
        → ServesAll opening (log ++ record { request = request; reply = reply_of state request } ∷ []) }
{}

//! What holds of all histories.

ghost use Rattle.tl_isolation.specs.Promises.{ClashIsReal, ConflictIsReal, EndsOnce, NeverOverlap};
ghost use Rattle.tl_isolation.specs.Queries.{BoundQueriesSuitTheirGroups};

/// What a history promises the users of the database, in their words.
pub fn histories_keep_their_promises()
    ensures overlap { NeverOverlap }
    ensures clash { ClashIsReal }
    ensures conflict { ConflictIsReal }
    ensures once { EndsOnce }
{}

/// Of a group's rows a bound query tells the same, whichever of them stands first.
pub fn bound_queries_suit_their_groups()
    ensures { BoundQueriesSuitTheirGroups }
{}

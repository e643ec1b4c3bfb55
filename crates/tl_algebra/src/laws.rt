ghost use Rattle.tl_algebra.specs.Law.{SelectHasOneAnswer, SelectNeverDoesBoth};
ghost use Rattle.tl_algebra.specs.Order.{SelectKnowsNoOrder};

/// A query has one outcome on the same tables: two answers are the same, and there is no answer beside an overflow.
pub fn select_has_one_answer()
    ensures one { SelectHasOneAnswer }
    ensures never_both { SelectNeverDoesBoth }
{}

/// A query tells the same whatever the order of its tables' rows.
pub fn select_knows_no_order()
    ensures { SelectKnowsNoOrder }
{}

ghost use Rattle.tl_bind.specs.Law.{ConditionFits};

/// A condition without faults is bound to one that compares only what is of one kind.
pub fn bound_conditions_fit()
    ensures { ConditionFits }
{}

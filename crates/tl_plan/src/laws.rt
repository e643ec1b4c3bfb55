//! What holds of all accesses.

ghost use Rattle.tl_plan.specs.Law.{ChangePartSuffices, PassingIsCovered, SelectPartSuffices};

/// A row that WHERE lets through lies within the access of its table, whatever stands beside it. So a SELECT and a
/// change tell of the rows within their accesses what they tell of all.
pub fn accesses_suffice()
    ensures covered { PassingIsCovered }
    ensures select { SelectPartSuffices }
    ensures change { ChangePartSuffices }
{}

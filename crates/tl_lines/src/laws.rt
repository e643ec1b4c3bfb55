ghost use Rattle.tl_lines.specs.Range.{DirectivesAreInRange};

/// The numbers of a directive are in their ranges.
pub fn directives_are_in_range()
    ensures { DirectivesAreInRange }
{}

ghost use Rattle.tl_write.specs.Law.{ChangeCountsRows, PartSuffices, RowsSuffice};

/// A part of a view gives the answer of the whole, where it has each row that the statement looks at.
pub fn part_suffices()
    ensures { PartSuffices }
{}

/// So does any list of rows of the view that has these, in whatever order, however often each.
pub fn rows_suffice()
    ensures { RowsSuffice }
{}

/// A change counts its rows.
pub fn change_counts_rows()
    ensures { ChangeCountsRows }
{}

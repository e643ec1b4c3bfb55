ghost use Rattle.std.specs.Prelude.{◌≡◌, List};
ghost use Rattle.std.specs.Cmp.Lexicographic.{slice_cmp};
ghost use Rattle.std.specs.Ordering.{nat_cmp, ordering_then};
ghost use Rattle.tl_values.specs.declared.value.Value.{Value};
ghost use Rattle.tl_values.specs.Key.{AreValues};
ghost use Rattle.tl_values.specs.Value.{row_cmp, values_at};
ghost use Rattle.tl_schema.specs.declared.catalog.Index.{Index};
ghost use Rattle.tl_schema.specs.declared.catalog.Table.{Table};
ghost use Rattle.tl_schema.specs.Record.{entry_key, entry_values, key_values};
ghost use Rattle.tl_schema.specs.Row.{FitsRow, row_spelling};

/// No two rows have the same spelling.
pub fn rows_differ()
    ensures { (r s : List Value) → FitsRow r → FitsRow s → row_spelling r ≡ row_spelling s → r ≡ s }
{}

/// The entries of an index stand in the order of its columns, and those with equal columns in that of the primary key.
pub fn entries_in_order()
    ensures { (table : Table) (index : Index) (r s : List Value) → AreValues (entry_values table index r) → AreValues (entry_values table index s) → slice_cmp nat_cmp (entry_key table index r) (entry_key table index s) ≡ ordering_then (row_cmp (values_at index.columns r) (values_at index.columns s)) (row_cmp (key_values table r) (key_values table s)) }
{}

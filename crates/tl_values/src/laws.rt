ghost use Rattle.std.specs.Prelude.{◌≡◌, List};
ghost use Rattle.std.specs.Cmp.{IsTotalOrder};
ghost use Rattle.std.specs.Cmp.Lexicographic.{slice_cmp};
ghost use Rattle.std.specs.FinMap.{IsAntisymmetric};
ghost use Rattle.std.specs.Ordering.{nat_cmp};
ghost use Rattle.tl_values.specs.declared.value.Value.{Value};
ghost use Rattle.tl_values.specs.Key.{AreValues, key_bytes};
ghost use Rattle.tl_values.specs.Value.{row_cmp, value_cmp};

/// Key bytes stand in the order of the lists of values that they are of.
pub fn key_order()
    ensures { (xs ys : List Value) → AreValues xs → AreValues ys → slice_cmp nat_cmp (key_bytes xs) (key_bytes ys) ≡ row_cmp xs ys }
{}

/// No two lists of values have the same key bytes.
pub fn keys_differ()
    ensures { (xs ys : List Value) → AreValues xs → AreValues ys → key_bytes xs ≡ key_bytes ys → xs ≡ ys }
{}

/// The order of values is total, and tells any two of them apart.
pub fn values_in_order()
    ensures total { IsTotalOrder value_cmp }
    ensures exact { IsAntisymmetric value_cmp }
{}

/// The order of rows is total, and tells any two of them apart.
pub fn rows_in_order()
    ensures total { IsTotalOrder row_cmp }
    ensures exact { IsAntisymmetric row_cmp }
{}

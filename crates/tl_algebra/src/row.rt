ghost use Rattle.std.specs.Prelude.{◌≡◌};
ghost use Rattle.std.specs.Option.{option_copied};
ghost use Rattle.tl_values.specs.Value.{value_at};
ghost use Rattle.tl_algebra.specs.Row.{or_null, side_value};

use crate::condition::Side;
use tl_values::{Row, Value};

/// The value at this place of the row. There is none outside it, which reads as NULL.
#[tactic(auto, using(crate::proofs::Places::place_read))]
pub fn value_at(row: &Row, place: u8) -> Option<&Value>
    ensures { or_null (option_copied result) ≡ value_at row.now place }
{
    row.get(usize::from(place))
}

/// The value of a side on the row.
pub fn side_value<'a>(side: &'a Side, row: &'a Row) -> Option<&'a Value>
    ensures { or_null (option_copied result) ≡ side_value row.now side.now }
{
    match side {
        Side::Place(place) => value_at(row, *place),
        Side::Literal(value) => Some(value),
    }
}

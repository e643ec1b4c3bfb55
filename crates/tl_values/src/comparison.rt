ghost use Rattle.std.specs.Prelude.{◌≡◌, not};
ghost use Rattle.std.specs.Ordering.{is_eq};
ghost use Rattle.tl_values.specs.Value.{compared, is_null, known, passes, rank, value_cmp};

use crate::value::{Comparison, Truth, Value};
use std::cmp::Ordering;

/// The order of two values: NULL, then booleans, numbers, and texts by their bytes.
pub fn order(a: &Value, b: &Value) -> Ordering
    ensures { result ≡ value_cmp a.now b.now }
{
    match (a, b) {
        (Value::Bool(a), Value::Bool(b)) => a.cmp(b),
        (Value::Int(a), Value::Int(b)) => a.cmp(b),
        (Value::Text(a), Value::Text(b)) => a.cmp(b),
        (a, b) => rank(a).cmp(&rank(b)),
    }
}

// The place of a value's kind in the order.
fn rank(value: &Value) -> u8
    ensures { result ≡ rank value.now }
{
    match value {
        Value::Null => 0,
        Value::Bool(_) => 1,
        Value::Int(_) => 2,
        Value::Text(_) => 3,
    }
}

/// What a comparison comes to: `Unknown` exactly where a side is NULL, and else by the order of values.
pub fn compare(a: &Value, by: Comparison, b: &Value) -> Truth
    ensures { result ≡ compared a.now by b.now }
{
    if is_null(a) || is_null(b) {
        return Truth::Unknown;
    }
    if passes(by, order(a, b)) {
        Truth::True
    } else {
        Truth::False
    }
}

fn is_null(value: &Value) -> bool
    ensures { result ≡ is_null value.now }
{
    matches!(value, Value::Null)
}

// Whether two sides in this order meet the comparison.
fn passes(by: Comparison, order: Ordering) -> bool
    ensures { result ≡ passes by order }
{
    match by {
        Comparison::Equal => order.is_eq(),
        Comparison::NotEqual => order.is_ne(),
        Comparison::Less => order.is_lt(),
        Comparison::LessEqual => order.is_le(),
        Comparison::Greater => order.is_gt(),
        Comparison::GreaterEqual => order.is_ge(),
    }
}

ghost use Rattle.std.specs.Prelude.{◌≡◌, IfOk, OnOk};
ghost use Rattle.tl_values.specs.Key.{AreValues, IsValue};

use crate::value::{Row, Value};
use tl_base::{Duplicate, NoMemory};

impl Duplicate for Value {
    fn copy(&self) -> Result<Value, NoMemory>
        ensures same { IfOk result (λ copy. copy ≡ self.now) }
        ensures value { OnOk result (IsValue self.now) }
    {
        prove_value(self);
        Ok(match self {
            Value::Null => Value::Null,
            Value::Bool(flag) => Value::Bool(*flag),
            Value::Int(number) => Value::Int(*number),
            Value::Text(text) => Value::Text(text.copy()?),
        })
    }
}

/// A copy of the row, on the allocator of the original.
pub fn copy_row(row: &Row) -> Result<Row, NoMemory>
    ensures same { IfOk result (λ copy. copy ≡ row.now) }
    ensures values { OnOk result (AreValues row.now) }
{
    prove_values(row.as_slice());
    row.copy()
}

/// That numbers fit 64 bits and texts are UTF-8, which a proof knows only of values that the code reads. It does
/// nothing else.
pub fn prove_values(values: &[Value])
    ensures { AreValues values.now }
{
    for value in values {
        prove_value(value);
    }
}

/// The same of one value.
pub fn prove_value(value: &Value)
    ensures { IsValue value.now }
{
    match value {
        Value::Int(number) => {
            let _number = *number;
        }
        Value::Text(text) => {
            let _text = text.as_str().as_bytes();
        }
        Value::Null | Value::Bool(_) => {}
    }
}

ghost use Rattle.std.specs.Prelude.{◌≡◌, Some, map};
ghost use Rattle.tl_algebra.specs.Value.{Gives, calculated, chained, checked, figure, value_of};
ghost use Rattle.tl_algebra.specs.Steps.{step_value};

use crate::expression::{Expression, Operator, Step};
use crate::fault::ValueFault;
use tl_base::{Duplicate, Items};
use tl_values::{Row, Value, copy_at};

/// The value of the expression on the row. `Overflow` comes exactly where a step of arithmetic lies outside 64 bits,
/// also where another step makes the whole NULL.
#[cycle(value)]
#[tactic(auto, unfolding(crate::specs::Value::value_of))]
pub fn value_of(expression: &Expression, row: &Row) -> Result<Value, ValueFault>
    ensures { Gives result (value_of expression.now row.now) }
{
    match expression {
        Expression::Place(place) => Ok(copy_at(row, *place)?),
        Expression::Literal(value) => Ok(value.copy()?),
        Expression::Chain { first, rest } => {
            let value = value_of(first.get(), row)?;
            chained(value, rest, row)
        }
    }
}

// The steps, one after the other, from this value on.
#[cycle(value)]
#[tactic(auto, using(crate::proofs::Chains::chained_nothing))]
fn chained(first: Value, steps: &Items<Step<Expression>>, row: &Row) -> Result<Value, ValueFault>
    ensures { Gives result (chained (Some first) (map (step_value row.now) steps.now)) }
{
    let mut value = first;
    for step in steps.as_slice() {
        let next = value_of(&step.of, row)?;
        value = calculated(value, step.by, next)?;
    }
    Ok(value)
}

// One step. Arithmetic with NULL is NULL.
fn calculated(a: Value, by: Operator, b: Value) -> Result<Value, ValueFault>
    ensures { Gives result (calculated a by b) }
{
    match (a, b) {
        (Value::Int(a), Value::Int(b)) => number(a, by, b),
        (_, _) => Ok(Value::Null),
    }
}

fn number(a: i64, by: Operator, b: i64) -> Result<Value, ValueFault>
    ensures { Gives result (checked (figure by a b)) }
{
    let number = match by {
        Operator::Add => a.checked_add(b),
        Operator::Subtract => a.checked_sub(b),
        Operator::Multiply => a.checked_mul(b),
    };
    match number {
        Some(number) => Ok(Value::Int(number)),
        None => Err(ValueFault::Overflow),
    }
}

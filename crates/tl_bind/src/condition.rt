//! Conditions by places.

ghost use Rattle.std.specs.Prelude.{◌≡◌, ◌≤◌, flat_map, length, map, IfOk, OnOk};
ghost use Rattle.tl_values.specs.Key.{AreValues};
ghost use Rattle.tl_bind.specs.Condition.{bound_condition, bound_filter, filter_values, operand_values, side_of, values_in};
ghost use Rattle.tl_bind.specs.Place.{columns_in};

use crate::place::place_of;
use std::alloc::Global;
use tl_algebra::{Condition, Side};
use tl_base::{Boxed, Duplicate, Items, NoMemory};
use tl_grammar::{Cond, Operand};
use tl_scope::Scope;

/// ON or WHERE over the columns of the scope, which are few enough.
pub fn bound_filter(
    alloc: Global,
    scope: &Scope<'_>,
    filter: &Option<Cond>,
) -> Result<Option<Condition>, NoMemory>
    requires { length (columns_in scope.now) ≤ 256 }
    ensures same { IfOk result (λ bound. bound ≡ bound_filter scope.now filter.now) }
    ensures values { OnOk result (AreValues (filter_values filter.now)) }
{
    match filter {
        Some(condition) => Ok(Some(bound_condition(alloc, scope, condition)?)),
        None => Ok(None),
    }
}

#[cycle(bound)]
#[tactic(auto, unfolding(crate::specs::Condition::bound_condition, crate::specs::Condition::values_in), using(crate::proofs::Values::values_append))]
fn bound_condition(
    alloc: Global,
    scope: &Scope<'_>,
    condition: &Cond,
) -> Result<Condition, NoMemory>
    requires { length (columns_in scope.now) ≤ 256 }
    ensures same { IfOk result (λ bound. bound ≡ bound_condition scope.now condition.now) }
    ensures values { OnOk result (AreValues (values_in condition.now)) }
{
    match condition {
        Cond::Test { left, by, right } => Ok(Condition::Test {
            left: side_of(scope, left)?,
            by: *by,
            right: side_of(scope, right)?,
        }),
        Cond::IsNull { of, negated } => Ok(Condition::IsNull {
            of: side_of(scope, of)?,
            negated: *negated,
        }),
        Cond::Not(condition) => {
            let condition = bound_condition(alloc, scope, condition.get())?;
            Ok(Condition::Not(Boxed::new(alloc, condition)?))
        }
        Cond::All(conditions) => Ok(Condition::And(bound_conditions(alloc, scope, conditions)?)),
        Cond::Any(conditions) => Ok(Condition::Or(bound_conditions(alloc, scope, conditions)?)),
    }
}

#[cycle(bound)]
#[tactic(auto, using(crate::proofs::Values::values_next))]
fn bound_conditions(
    alloc: Global,
    scope: &Scope<'_>,
    conditions: &Items<Cond>,
) -> Result<Items<Condition>, NoMemory>
    requires { length (columns_in scope.now) ≤ 256 }
    ensures same { IfOk result (λ bound. bound ≡ map (bound_condition scope.now) conditions.now) }
    ensures values { OnOk result (AreValues (flat_map (λ vs. vs) (map values_in conditions.now))) }
{
    let mut bound = Items::new(alloc);
    for condition in conditions.as_slice() {
        bound.push(bound_condition(alloc, scope, condition)?)?;
    }
    Ok(bound)
}

fn side_of(scope: &Scope<'_>, operand: &Operand) -> Result<Side, NoMemory>
    requires { length (columns_in scope.now) ≤ 256 }
    ensures same { IfOk result (λ side. side ≡ side_of scope.now operand.now) }
    ensures values { OnOk result (AreValues (operand_values operand.now)) }
{
    match operand {
        Operand::Column(name) => Ok(Side::Place(place_of(scope, name))),
        Operand::Literal(literal) => Ok(Side::Literal(literal.value.copy()?)),
    }
}

//! Expressions by places.

ghost use Rattle.std.specs.Prelude.{◌≡◌, ◌≤◌, length, map, IfOk, OnOk};
ghost use Rattle.tl_values.specs.Key.{AreValues};
ghost use Rattle.tl_bind.specs.Condition.{operand_values};
ghost use Rattle.tl_bind.specs.Expression.{bound_expression, bound_operand, bound_step, operator_of, step_values, values_in, values_of_step};
ghost use Rattle.tl_bind.specs.Place.{columns_in};

use crate::place::place_of;
use std::alloc::Global;
use tl_algebra::{Expression, Operator, Step};
use tl_base::{Boxed, Duplicate, Items, NoMemory};
use tl_grammar::{Expr, Operand, Operator as Sign, Step as SignStep};
use tl_scope::Scope;

/// An expression over the columns of the scope, which are few enough.
#[cycle(bound)]
#[tactic(auto, unfolding(crate::specs::Expression::bound_expression, crate::specs::Expression::values_in), using(crate::proofs::Values::values_append))]
pub fn bound_expression(
    alloc: Global,
    scope: &Scope<'_>,
    expression: &Expr,
) -> Result<Expression, NoMemory>
    requires { length (columns_in scope.now) ≤ 256 }
    ensures same { IfOk result (λ bound. bound ≡ bound_expression scope.now expression.now) }
    ensures values { OnOk result (AreValues (values_in expression.now)) }
{
    match expression {
        Expr::Operand(operand) => bound_operand(scope, operand),
        Expr::Chain { first, rest } => {
            let first = bound_expression(alloc, scope, first.get())?;
            let first = Boxed::new(alloc, first)?;
            let rest = bound_steps(alloc, scope, rest)?;
            Ok(Expression::Chain { first, rest })
        }
    }
}

#[cycle(bound)]
fn bound_steps(
    alloc: Global,
    scope: &Scope<'_>,
    steps: &Items<SignStep<Expr>>,
) -> Result<Items<Step<Expression>>, NoMemory>
    requires { length (columns_in scope.now) ≤ 256 }
    ensures same { IfOk result (λ bound. bound ≡ map (bound_step scope.now) steps.now) }
    ensures values { OnOk result (AreValues (step_values (map values_of_step steps.now))) }
{
    let mut bound = Items::new(alloc);
    for step in steps.as_slice() {
        let of = bound_expression(alloc, scope, &step.of)?;
        bound.push(Step {
            by: operator_of(step.by),
            of,
        })?;
    }
    Ok(bound)
}

fn operator_of(sign: Sign) -> Operator
    ensures { result ≡ operator_of sign }
{
    match sign {
        Sign::Add => Operator::Add,
        Sign::Subtract => Operator::Subtract,
        Sign::Multiply => Operator::Multiply,
    }
}

fn bound_operand(scope: &Scope<'_>, operand: &Operand) -> Result<Expression, NoMemory>
    requires { length (columns_in scope.now) ≤ 256 }
    ensures same { IfOk result (λ bound. bound ≡ bound_operand scope.now operand.now) }
    ensures values { OnOk result (AreValues (operand_values operand.now)) }
{
    match operand {
        Operand::Column(name) => Ok(Expression::Place(place_of(scope, name))),
        Operand::Literal(literal) => Ok(Expression::Literal(literal.value.copy()?)),
    }
}

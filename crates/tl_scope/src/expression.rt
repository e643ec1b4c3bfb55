//! The first fault of an expression.

ghost use Rattle.std.specs.Prelude.{◌≡◌, map};
ghost use Rattle.tl_scope.specs.Expression.{expression_faults, expression_kind, number_faults, step_faults, step_sum, sum_faults};
ghost use Rattle.tl_scope.specs.Fault.{least};

use crate::condition::{differ, operand_at, operand_fault, operand_kind};
use crate::fault::{BindFault, BindKind, earliest, fault_if};
use crate::scope::Scope;
use tl_base::Items;
use tl_grammar::{Expr, Operand, Step};
use tl_values::Kind;

/// The first fault of an expression that may be of any type.
pub fn expression_fault(scope: &Scope<'_>, expression: &Expr) -> Option<BindFault>
    ensures { result ≡ least (expression_faults scope.now expression.now) }
{
    match expression {
        Expr::Operand(operand) => operand_fault(scope, operand),
        Expr::Chain { .. } => sum_fault(scope, expression),
    }
}

/// The type of an expression. None stands for every type.
pub fn expression_kind(scope: &Scope<'_>, expression: &Expr) -> Option<Kind>
    ensures { result ≡ expression_kind scope.now expression.now }
{
    match expression {
        Expr::Operand(operand) => operand_kind(scope, operand),
        Expr::Chain { .. } => Some(Kind::Int),
    }
}

// The first fault of an expression where a number is wanted.
#[cycle(sums)]
#[tactic(auto, unfolding(crate::specs::Expression::sum_faults), using(crate::proofs::Faults::least_append))]
fn sum_fault(scope: &Scope<'_>, expression: &Expr) -> Option<BindFault>
    ensures { result ≡ least (sum_faults scope.now expression.now) }
{
    match expression {
        Expr::Operand(operand) => number_fault(scope, operand),
        Expr::Chain { first, rest } => {
            let fault = sum_fault(scope, first.get());
            earliest(fault, steps_fault(scope, rest))
        }
    }
}

#[cycle(sums)]
fn steps_fault(scope: &Scope<'_>, steps: &Items<Step<Expr>>) -> Option<BindFault>
    ensures { result ≡ least (step_faults (map (step_sum scope.now) steps.now)) }
{
    let mut fault = None;
    for step in steps.as_slice() {
        fault = earliest(fault, sum_fault(scope, &step.of));
    }
    fault
}

#[tactic(auto, using(crate::proofs::Faults::least_append))]
fn number_fault(scope: &Scope<'_>, operand: &Operand) -> Option<BindFault>
    ensures { result ≡ least (number_faults scope.now operand.now) }
{
    let differ = differ(operand_kind(scope, operand), Some(Kind::Int));
    let wrong = fault_if(differ, operand_at(operand), BindKind::WrongType);
    earliest(operand_fault(scope, operand), wrong)
}

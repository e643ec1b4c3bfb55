//! The first fault of a condition.

ghost use Rattle.std.specs.Prelude.{◌≡◌, map};
ghost use Rattle.tl_scope.specs.Condition.{all_of, condition_faults, differ, filter_faults, operand_at, operand_faults, operand_kind, same_kind, test_faults, value_kind};
ghost use Rattle.tl_scope.specs.Fault.{least};

use crate::fault::{BindFault, BindKind, earliest, fault_if};
use crate::scope::{Scope, column_at, column_fault, kind_of};
use tl_base::Items;
use tl_grammar::{Cond, Operand};
use tl_values::{Kind, Value};

/// The first fault of ON or WHERE, where it is written.
pub fn filter_fault(scope: &Scope<'_>, filter: &Option<Cond>) -> Option<BindFault>
    ensures { result ≡ least (filter_faults scope.now filter.now) }
{
    match filter {
        Some(condition) => condition_fault(scope, condition),
        None => None,
    }
}

#[cycle(conditions)]
#[tactic(auto, unfolding(crate::specs::Condition::condition_faults))]
fn condition_fault(scope: &Scope<'_>, condition: &Cond) -> Option<BindFault>
    ensures { result ≡ least (condition_faults scope.now condition.now) }
{
    match condition {
        Cond::Test { left, right, .. } => test_fault(scope, left, right),
        Cond::IsNull { of, .. } => operand_fault(scope, of),
        Cond::Not(condition) => condition_fault(scope, condition.get()),
        Cond::All(conditions) => conditions_fault(scope, conditions),
        Cond::Any(conditions) => conditions_fault(scope, conditions),
    }
}

#[cycle(conditions)]
#[tactic(auto, using(crate::proofs::Faults::earliest_none))]
fn conditions_fault(scope: &Scope<'_>, conditions: &Items<Cond>) -> Option<BindFault>
    ensures { result ≡ least (all_of (map (condition_faults scope.now) conditions.now)) }
{
    let mut fault = None;
    for condition in conditions.as_slice() {
        fault = earliest(fault, condition_fault(scope, condition));
    }
    fault
}

#[tactic(auto, using(crate::proofs::Faults::least_append))]
fn test_fault(scope: &Scope<'_>, a: &Operand, b: &Operand) -> Option<BindFault>
    ensures { result ≡ least (test_faults scope.now a.now b.now) }
{
    let sides = earliest(operand_fault(scope, a), operand_fault(scope, b));
    let differ = differ(operand_kind(scope, a), operand_kind(scope, b));
    earliest(sides, fault_if(differ, operand_at(a), BindKind::WrongType))
}

/// The fault of an operand's name.
pub fn operand_fault(scope: &Scope<'_>, operand: &Operand) -> Option<BindFault>
    ensures { result ≡ least (operand_faults scope.now operand.now) }
{
    match operand {
        Operand::Column(name) => column_fault(scope, name),
        Operand::Literal(_) => None,
    }
}

/// The type of an operand. None stands for every type.
pub fn operand_kind(scope: &Scope<'_>, operand: &Operand) -> Option<Kind>
    ensures { result ≡ operand_kind scope.now operand.now }
{
    match operand {
        Operand::Column(name) => kind_of(scope.find(name)),
        Operand::Literal(literal) => value_kind(&literal.value),
    }
}

/// The place of the first byte.
pub fn operand_at(operand: &Operand) -> u32
    ensures { result ≡ operand_at operand.now }
{
    match operand {
        Operand::Column(name) => column_at(name),
        Operand::Literal(literal) => literal.at,
    }
}

/// The type of a value. NULL has every type.
pub fn value_kind(value: &Value) -> Option<Kind>
    ensures { result ≡ value_kind value.now }
{
    match value {
        Value::Null => None,
        Value::Bool(_) => Some(Kind::Bool),
        Value::Int(_) => Some(Kind::Int),
        Value::Text(_) => Some(Kind::Text),
    }
}

/// Whether these are two types that differ.
pub fn differ(a: Option<Kind>, b: Option<Kind>) -> bool
    ensures { result ≡ differ a b }
{
    match (a, b) {
        (Some(a), Some(b)) => !same_kind(a, b),
        (None, _) | (_, None) => false,
    }
}

fn same_kind(a: Kind, b: Kind) -> bool
    ensures { result ≡ same_kind a b }
{
    matches!(
        (a, b),
        (Kind::Int, Kind::Int) | (Kind::Text, Kind::Text) | (Kind::Bool, Kind::Bool)
    )
}

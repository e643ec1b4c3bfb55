//! Copies, each equal to its original. They recurse into brackets alone.

ghost use Rattle.std.specs.Prelude.{◌≡◌, IfOk};

use crate::condition::{Condition, Side};
use crate::edit::{Edit, SetColumn};
use crate::expression::{Expression, Step};
use crate::query::{Join, Output, Query};
use std::alloc::Global;
use tl_base::{Boxed, Duplicate, Items, NoMemory};

impl Duplicate for Side {
    fn copy(&self) -> Result<Side, NoMemory> {
        Ok(match self {
            Side::Place(place) => Side::Place(*place),
            Side::Literal(value) => Side::Literal(value.copy()?),
        })
    }
}

impl Expression {
    #[cycle(copy_expression)]
    pub fn copy(&self, alloc: Global) -> Result<Expression, NoMemory>
        ensures { IfOk result (λ copy. copy ≡ self.now) }
    {
        match self {
            Expression::Place(place) => Ok(Expression::Place(*place)),
            Expression::Literal(value) => Ok(Expression::Literal(value.copy()?)),
            Expression::Chain { first, rest } => Ok(Expression::Chain {
                first: Boxed::new(alloc, first.get().copy(alloc)?)?,
                rest: copy_steps(alloc, rest)?,
            }),
        }
    }
}

#[cycle(copy_expression)]
fn copy_steps(
    alloc: Global,
    steps: &Items<Step<Expression>>,
) -> Result<Items<Step<Expression>>, NoMemory>
    ensures { IfOk result (λ copy. copy ≡ steps.now) }
{
    let mut copies = Items::new(alloc);
    for step in steps.as_slice() {
        let of = step.of.copy(alloc)?;
        copies.push(Step { by: step.by, of })?;
    }
    Ok(copies)
}

impl Condition {
    #[cycle(copy_condition)]
    pub fn copy(&self, alloc: Global) -> Result<Condition, NoMemory>
        ensures { IfOk result (λ copy. copy ≡ self.now) }
    {
        match self {
            Condition::Test { left, by, right } => Ok(Condition::Test {
                left: left.copy()?,
                by: *by,
                right: right.copy()?,
            }),
            Condition::IsNull { of, negated } => Ok(Condition::IsNull {
                of: of.copy()?,
                negated: *negated,
            }),
            Condition::Not(condition) => {
                let condition = condition.get().copy(alloc)?;
                Ok(Condition::Not(Boxed::new(alloc, condition)?))
            }
            Condition::And(conditions) => Ok(Condition::And(copy_conditions(alloc, conditions)?)),
            Condition::Or(conditions) => Ok(Condition::Or(copy_conditions(alloc, conditions)?)),
        }
    }
}

#[cycle(copy_condition)]
fn copy_conditions(
    alloc: Global,
    conditions: &Items<Condition>,
) -> Result<Items<Condition>, NoMemory>
    ensures { IfOk result (λ copy. copy ≡ conditions.now) }
{
    let mut copies = Items::new(alloc);
    for condition in conditions.as_slice() {
        copies.push(condition.copy(alloc)?)?;
    }
    Ok(copies)
}

fn copy_filter(alloc: Global, filter: &Option<Condition>) -> Result<Option<Condition>, NoMemory>
    ensures { IfOk result (λ copy. copy ≡ filter.now) }
{
    match filter {
        Some(condition) => Ok(Some(condition.copy(alloc)?)),
        None => Ok(None),
    }
}

impl Output {
    pub fn copy(&self, alloc: Global) -> Result<Output, NoMemory>
        ensures { IfOk result (λ copy. copy ≡ self.now) }
    {
        Ok(match self {
            Output::Expression(expression) => Output::Expression(expression.copy(alloc)?),
            Output::CountRows => Output::CountRows,
            Output::Count(place) => Output::Count(*place),
            Output::Sum(place) => Output::Sum(*place),
            Output::Least(place) => Output::Least(*place),
            Output::Greatest(place) => Output::Greatest(*place),
        })
    }
}

fn copy_outputs(alloc: Global, outputs: &Items<Output>) -> Result<Items<Output>, NoMemory>
    ensures { IfOk result (λ copy. copy ≡ outputs.now) }
{
    let mut copies = Items::new(alloc);
    for output in outputs.as_slice() {
        copies.push(output.copy(alloc)?)?;
    }
    Ok(copies)
}

impl Join {
    pub fn copy(&self, alloc: Global) -> Result<Join, NoMemory>
        ensures { IfOk result (λ copy. copy ≡ self.now) }
    {
        Ok(Join {
            table: self.table,
            on: copy_filter(alloc, &self.on)?,
        })
    }
}

fn copy_joins(alloc: Global, joins: &Items<Join>) -> Result<Items<Join>, NoMemory>
    ensures { IfOk result (λ copy. copy ≡ joins.now) }
{
    let mut copies = Items::new(alloc);
    for join in joins.as_slice() {
        copies.push(join.copy(alloc)?)?;
    }
    Ok(copies)
}

impl Query {
    pub fn copy(&self, alloc: Global) -> Result<Query, NoMemory>
        ensures { IfOk result (λ copy. copy ≡ self.now) }
    {
        Ok(Query {
            from: copy_joins(alloc, &self.from)?,
            filter: copy_filter(alloc, &self.filter)?,
            group: Items::from_slice(alloc, self.group.as_slice())?,
            outputs: copy_outputs(alloc, &self.outputs)?,
            sort: Items::from_slice(alloc, self.sort.as_slice())?,
            limit: self.limit,
        })
    }
}

impl SetColumn {
    pub fn copy(&self, alloc: Global) -> Result<SetColumn, NoMemory>
        ensures { IfOk result (λ copy. copy ≡ self.now) }
    {
        Ok(SetColumn {
            column: self.column,
            value: self.value.copy(alloc)?,
        })
    }
}

fn copy_sets(alloc: Global, sets: &Items<SetColumn>) -> Result<Items<SetColumn>, NoMemory>
    ensures { IfOk result (λ copy. copy ≡ sets.now) }
{
    let mut copies = Items::new(alloc);
    for set in sets.as_slice() {
        copies.push(set.copy(alloc)?)?;
    }
    Ok(copies)
}

impl Edit {
    pub fn copy(&self, alloc: Global) -> Result<Edit, NoMemory>
        ensures { IfOk result (λ copy. copy ≡ self.now) }
    {
        Ok(match self {
            Edit::Insert { table, rows } => Edit::Insert {
                table: *table,
                rows: rows.copy()?,
            },
            Edit::Update {
                table,
                sets,
                filter,
            } => Edit::Update {
                table: *table,
                sets: copy_sets(alloc, sets)?,
                filter: copy_filter(alloc, filter)?,
            },
            Edit::Delete { table, filter } => Edit::Delete {
                table: *table,
                filter: copy_filter(alloc, filter)?,
            },
        })
    }
}

ghost use Rattle.std.specs.Prelude.{◌≡◌, map};
ghost use Rattle.tl_values.specs.Value.{compared, known};
ghost use Rattle.tl_algebra.specs.Row.{side_value};
ghost use Rattle.tl_algebra.specs.Truth.{greater, greatest, least, lesser, lets_through, null_test, truth_of, turned};

use crate::condition::{Condition, Side};
use crate::row::side_value;
use tl_base::Items;
use tl_values::{Comparison, Row, Truth, Value, compare};

/// What the condition comes to on the row, in Kleene's logic.
#[cycle(truth)]
#[tactic(auto, unfolding(crate::specs::Truth::truth_of))]
pub fn truth_of(condition: &Condition, row: &Row) -> Truth
    ensures { result ≡ truth_of condition.now row.now }
{
    match condition {
        Condition::Test { left, by, right } => test(left, *by, right, row),
        Condition::IsNull { of, negated } => null_test(of, *negated, row),
        Condition::Not(condition) => turned(truth_of(condition.get(), row)),
        Condition::And(conditions) => least(conditions, row),
        Condition::Or(conditions) => greatest(conditions, row),
    }
}

/// Whether the condition of an ON or a WHERE is true of the row. One that isn't written is true of all.
pub fn lets_through(condition: &Option<Condition>, row: &Row) -> bool
    ensures { result ≡ lets_through condition.now row.now }
{
    match condition {
        Some(condition) => matches!(truth_of(condition, row), Truth::True),
        None => true,
    }
}

fn test(left: &Side, by: Comparison, right: &Side, row: &Row) -> Truth
    ensures { result ≡ compared (side_value row.now left.now) by (side_value row.now right.now) }
{
    let Some(left) = side_value(left, row) else {
        return Truth::Unknown;
    };
    let Some(right) = side_value(right, row) else {
        return Truth::Unknown;
    };
    compare(left, by, right)
}

fn null_test(of: &Side, negated: bool, row: &Row) -> Truth
    ensures { result ≡ null_test negated (side_value row.now of.now) }
{
    let is_null = match side_value(of, row) {
        Some(value) => matches!(value, Value::Null),
        None => true,
    };
    known(is_null != negated)
}

fn known(holds: bool) -> Truth
    ensures { result ≡ known holds }
{
    if holds { Truth::True } else { Truth::False }
}

// NOT.
fn turned(truth: Truth) -> Truth
    ensures { result ≡ turned truth }
{
    match truth {
        Truth::False => Truth::True,
        Truth::Unknown => Truth::Unknown,
        Truth::True => Truth::False,
    }
}

// AND: False where one is, and else Unknown where one is.
#[cycle(truth)]
#[tactic(auto, using(crate::proofs::Truths::lesser_assoc, crate::proofs::Truths::lesser_true))]
fn least(conditions: &Items<Condition>, row: &Row) -> Truth
    ensures { result ≡ least (map (λ condition. truth_of condition row.now) conditions.now) }
{
    let mut truth = Truth::True;
    for condition in conditions.as_slice() {
        truth = lesser(truth, truth_of(condition, row));
    }
    truth
}

// OR: True where one is, and else Unknown where one is.
#[cycle(truth)]
#[tactic(auto, using(crate::proofs::Truths::greater_assoc, crate::proofs::Truths::greater_false))]
fn greatest(conditions: &Items<Condition>, row: &Row) -> Truth
    ensures { result ≡ greatest (map (λ condition. truth_of condition row.now) conditions.now) }
{
    let mut truth = Truth::False;
    for condition in conditions.as_slice() {
        truth = greater(truth, truth_of(condition, row));
    }
    truth
}

fn lesser(a: Truth, b: Truth) -> Truth
    ensures { result ≡ lesser a b }
{
    match (a, b) {
        (Truth::False, _) | (_, Truth::False) => Truth::False,
        (Truth::True, Truth::True) => Truth::True,
        (Truth::Unknown, _) | (_, Truth::Unknown) => Truth::Unknown,
    }
}

fn greater(a: Truth, b: Truth) -> Truth
    ensures { result ≡ greater a b }
{
    match (a, b) {
        (Truth::True, _) | (_, Truth::True) => Truth::True,
        (Truth::False, Truth::False) => Truth::False,
        (Truth::Unknown, _) | (_, Truth::Unknown) => Truth::Unknown,
    }
}

//! Faults of binding, and the first of them.

ghost use Rattle.std.specs.Prelude.{◌≡◌, ◌<◌};
ghost use Rattle.tl_scope.specs.Fault.{earliest, fault_if, least, rank, weight};

use thiserror::Error;

/// Why a statement isn't bound. At one place the kind that stands first here comes.
#[derive(Clone, Copy, Debug, PartialEq, Eq, Error)]
pub enum BindKind {
    /// No table has the name.
    #[error("UnknownTable")]
    UnknownTable,
    /// No column has the name, among those that may stand there.
    #[error("UnknownColumn")]
    UnknownColumn,
    /// Two FROM items have a column of the name.
    #[error("Ambiguous")]
    Ambiguous,
    /// A value or column is of another kind than the one that has to stand there.
    #[error("WrongType")]
    WrongType,
    /// SET changes a column of the primary key.
    #[error("KeyChange")]
    KeyChange,
    /// A column outside an aggregate is none of GROUP BY.
    #[error("Grouping")]
    Grouping,
    /// A name is given twice where names have to differ.
    #[error("Twice")]
    Twice,
    /// A table has no primary key, or two.
    #[error("NoKey")]
    NoKey,
    /// More tables, columns, indexes or FROM items than there may be.
    #[error("TooMany")]
    TooMany,
}

/// A fault, with the place of its first byte.
#[derive(Clone, Copy, Debug, PartialEq, Eq)]
pub struct BindFault {
    pub at: u32,
    pub kind: BindKind,
}

/// The fault, where there is one.
pub fn fault_if(wrong: bool, at: u32, kind: BindKind) -> Option<BindFault>
    ensures { result ≡ least (fault_if wrong at kind) }
{
    if wrong {
        Some(BindFault { at, kind })
    } else {
        None
    }
}

/// The one that stands first in the text, and at one place the one whose kind stands first.
pub fn earliest(a: Option<BindFault>, b: Option<BindFault>) -> Option<BindFault>
    ensures { result ≡ earliest a b }
{
    match (a, b) {
        (None, b) => b,
        (Some(a), None) => Some(a),
        (Some(a), Some(b)) => Some(if weight(b) < weight(a) { b } else { a }),
    }
}

fn weight(fault: BindFault) -> u64
    ensures { result ≡ weight fault }
{
    u64::from(fault.at) * 9 + u64::from(rank(fault.kind))
}

fn rank(kind: BindKind) -> u8
    ensures value { result ≡ rank kind }
    ensures below { result < 9 }
{
    match kind {
        BindKind::UnknownTable => 0,
        BindKind::UnknownColumn => 1,
        BindKind::Ambiguous => 2,
        BindKind::WrongType => 3,
        BindKind::KeyChange => 4,
        BindKind::Grouping => 5,
        BindKind::Twice => 6,
        BindKind::NoKey => 7,
        BindKind::TooMany => 8,
    }
}

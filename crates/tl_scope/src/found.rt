use tl_values::Kind;

/// A column of a FROM item: their places, from 0, and its type.
#[derive(Clone, Copy, Debug, PartialEq, Eq)]
pub struct Spot {
    pub item: usize,
    pub column: usize,
    pub kind: Kind,
}

/// What the name of a column stands for.
#[derive(Clone, Copy, Debug, PartialEq, Eq)]
pub enum Found {
    NoTable,
    NoColumn,
    One(Spot),
    Several,
}

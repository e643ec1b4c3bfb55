use tl_base::Text;

/// A name in lower case, with the place of its first byte.
#[derive(Debug, Drop)]
pub struct Name {
    pub at: u32,
    pub text: Text,
}

/// A column, with the name of its table where that is written before it.
#[derive(Debug, Drop)]
pub struct ColumnName {
    pub table: Option<Name>,
    pub column: Name,
}

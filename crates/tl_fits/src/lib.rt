//! What binding answers fits the catalog, and what CREATE makes keeps the catalog fitting: laws, and no code.
#![tactic(auto)]

ghost use Rattle.tl_fits.specs.Fits.{BoundStatementsFit, DefinedTablesFit, FittingCatalogsAreWithin};

/// A statement without faults is bound to one that fits.
pub fn bound_statements_fit()
    ensures { BoundStatementsFit }
{}

/// With the table or the index that a CREATE without faults makes the catalog fits.
pub fn defined_tables_fit()
    ensures { DefinedTablesFit }
{}

/// Names may be bound in a catalog that fits.
pub fn fitting_catalogs_are_within()
    ensures { FittingCatalogsAreWithin }
{}

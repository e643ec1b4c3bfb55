ghost use Rattle.tl_opening.specs.Law.{HomeRowsOpen, HomeStandsUnderKeys, InsertsCount, InsertsStayHome, TablesStayHome};

/// Rows at home are what a script may open with.
pub fn opening_rows_fit()
    ensures { HomeRowsOpen }
{}

/// An INSERT leaves them at home.
pub fn inserts_stay_home()
    ensures { InsertsStayHome }
{}

/// So does a table more.
pub fn tables_stay_home()
    ensures { TablesStayHome }
{}

/// An INSERT makes them more by its own rows.
pub fn inserts_count()
    ensures { InsertsCount }
{}

/// Rows at home stand under their record keys.
pub fn home_stands_under_keys()
    ensures { HomeStandsUnderKeys }
{}

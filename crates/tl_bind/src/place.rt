//! The places of columns.

ghost use Rattle.std.specs.Prelude.{◌≡◌, ◌≤◌, ◌<◌, length};
ghost use Rattle.tl_bind.specs.Place.{columns_in, place_at, place_of};

use tl_grammar::ColumnName;
use tl_scope::{Found, Scope, Source, Spot};

/// The place of the column through the columns of all FROM items, which are few enough. A name that isn't of one column
/// is a fault.
#[tactic(auto, using(crate::proofs::Places::place_within))]
pub fn place_of(scope: &Scope<'_>, name: &ColumnName) -> u8
    requires { length (columns_in scope.now) ≤ 256 }
    ensures { result ≡ place_of scope.now name.now }
{
    match scope.find(name) {
        Found::One(spot) => place_at(scope.sources(), spot),
        Found::NoTable | Found::NoColumn | Found::Several => 0,
    }
}

fn place_at(sources: &[Source<'_>], spot: Spot) -> u8
    requires { place_at spot.column sources.now spot.item < 256 }
    ensures { result ≡ place_at spot.column sources.now spot.item }
{
    let mut place = spot.column;
    let mut before = spot.item;
    for source in sources {
        if before == 0 {
            break;
        }
        before -= 1;
        place += source.columns().len();
    }
    place as u8
}

/// How many columns the FROM items have.
pub fn width(scope: &Scope<'_>) -> usize
    requires { length (columns_in scope.now) ≤ 256 }
    ensures { result ≡ length (columns_in scope.now) }
{
    let mut width = 0;
    for source in scope.sources() {
        width += source.columns().len();
    }
    width
}

//! What holds of all versions.

ghost use Rattle.std.specs.Prelude.{◌≡◌, ℕ, List, ◌∷◌, Some, None, true, false};
ghost use Rattle.tl_codec.specs.Taken.{IsBytes};
ghost use Rattle.tl_descriptor.specs.Tids.{IsCanonical, IsWithin, TidSet, begins, has};
ghost use Rattle.tl_versions.specs.declared.version.Version.{Version as TheVersion};
ghost use Rattle.tl_versions.specs.Cell.{FitsCell, FitsVersion, IsCell, IsSpelled, spelling};
ghost use Rattle.tl_versions.specs.Reading.{read_cell};
ghost use Rattle.tl_versions.specs.Versions.{is_written, prune, stranger, strip, visible};

use tl_descriptor::begins_is_an_order;

/// To prune by a floor changes the visible version of no set that the floor begins.
pub fn prune_keeps_the_visible()
    ensures within { (set floor : TidSet) (versions : List TheVersion) → IsWithin floor set → visible set (prune floor versions) ≡ visible set versions }
    ensures begun { (set floor : TidSet) (versions : List TheVersion) → IsCanonical floor → IsCanonical set → begins floor set ≡ true → visible set (prune floor versions) ≡ visible set versions }
{
    begins_is_an_order();
}

/// Where no version is outside a set, a tid outside it has no version, and so its version can be pushed.
pub fn no_stranger_is_new()
    ensures { (set : TidSet) (tid : ℕ) (versions : List TheVersion) → stranger set versions ≡ None → has set tid ≡ false → is_written tid versions ≡ false }
{}

/// What a push, a strip and a prune leave is a cell again.
pub fn cells_stay_cells()
    ensures push { (version : TheVersion) (versions : List TheVersion) → IsCell versions → FitsVersion version → is_written version.tid versions ≡ false → IsCell (version ∷ versions) }
    ensures strip { (tid : ℕ) (versions : List TheVersion) → IsCell versions → IsCell (strip tid versions) }
    ensures prune { (floor : TidSet) (versions : List TheVersion) → IsCell versions → IsCell (prune floor versions) }
{}

/// What is spelled so is read, and what is read is spelled so.
pub fn cells_are_read()
    ensures again { (versions : List TheVersion) → FitsCell versions → read_cell (spelling versions) ≡ Some versions }
    ensures taken { (bytes : List ℕ) (versions : List TheVersion) → IsBytes bytes → read_cell bytes ≡ Some versions → IsSpelled bytes versions × FitsCell versions }
{}

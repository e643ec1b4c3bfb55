ghost use Rattle.std.specs.Prelude.{◌≡◌, ◌∷◌, [], List, false, IfOk, OnOk, OnErr, not, ◌==◌};
ghost use Rattle.std.specs.List.{prefix_len};
ghost use Rattle.std.specs.Option.{option_copied};
ghost use Rattle.std.specs.Result.{IsErrOf};
ghost use Rattle.tl_versions.specs.declared.version.Version.{Version as TheVersion};
ghost use Rattle.tl_descriptor.specs.Tids.{has};
ghost use Rattle.tl_versions.specs.Bears.{bears};
ghost use Rattle.tl_versions.specs.Cell.{FitsCell, IsCell, IsShortChange, IsSpelled, spelling};
ghost use Rattle.tl_versions.specs.Versions.{is_written, prune, stranger, strip, visible};

use crate::entry::some_has_entry;
use crate::fault::CellFault;
use crate::reading::read_cell;
use crate::version::{Version, prove_version};
use std::alloc::Global;
use std::marker::Model;
use tl_base::{Bytes, Items, NoMemory, Tid};
use tl_codec::{ReadFault, write_many, write_u32};
use tl_descriptor::Descriptor;
use tl_schema::Table;

/// The versions of a record, the newest write first. No two have the same tid.
#[derive(Debug, Drop)]
pub struct Versions {
    versions: Items<Version>,
}

impl Model for Versions {
    ghost use Rattle.std.specs.Prelude.{List};
    ghost use Rattle.tl_versions.specs.declared.version.Version.{Version as TheVersion};
    ghost use Rattle.tl_versions.specs.Cell.{IsCell};

    ghost Value = { List TheVersion };

    ghost view = { λ cell. cell.versions };

    ghost invariant = { λ cell. IsCell cell.versions };
}

impl Versions {
    pub fn new(alloc: Global) -> Versions
        ensures { result ≡ [] }
    {
        Versions {
            versions: Items::new(alloc),
        }
    }

    /// The versions of a cell.
    pub(crate) fn from_items(versions: Items<Version>) -> Versions
        requires { IsCell versions }
        ensures { result ≡ versions }
    {
        Versions { versions }
    }

    /// That no two versions have the same tid, and that each has a spelling. It does nothing.
    pub fn prove_cell(&self)
        ensures { IsCell self.now }
    {
        let _ = &self.versions;
    }

    /// The versions, the newest write first.
    pub fn list(&self) -> &[Version]
        ensures { result.now ≡ self.now }
    {
        self.versions.as_slice()
    }

    /// The first version whose tid is in the snapshot.
    pub fn visible(&self, snapshot: &Descriptor) -> Option<&Version>
        ensures { option_copied result ≡ visible snapshot.now self.now }
    {
        self.versions.get(count_outside(self.list(), snapshot))
    }

    /// The tid of the first version that isn't in the snapshot.
    pub fn stranger(&self, snapshot: &Descriptor) -> Option<Tid>
        ensures { result ≡ stranger snapshot.now self.now }
    {
        let place = count_inside(self.list(), snapshot);
        match self.versions.get(place) {
            Some(version) => Some(version.tid),
            None => None,
        }
    }

    /// Puts the version in front. Its tid isn't in the list, and its row has fewer than 256 values and 65,536 bytes.
    pub fn push(&mut self, version: Version) -> Result<(), NoMemory>
        requires new { is_written version.tid self.old ≡ false }
        requires short { IsShortChange version.row }
        ensures ok { OnOk result (self.new ≡ version ∷ self.old) }
        ensures err { OnErr result (self.new ≡ self.old) }
    {
        prove_version(&version);
        self.versions.insert(0, version)?;
        Ok(())
    }

    /// Removes the version of the tid.
    pub fn strip(&mut self, tid: Tid)
        ensures { self.new ≡ strip tid self.old }
    {
        let place = count_others(self.versions.as_slice(), tid);
        if place < self.versions.len() {
            drop(self.versions.remove(place));
        }
    }

    /// Drops all versions after the first one that is in the floor.
    pub fn prune(&mut self, floor: &Descriptor)
        ensures { self.new ≡ prune floor.now self.old }
    {
        let place = count_outside(self.versions.as_slice(), floor);
        if place < self.versions.len() {
            self.versions.truncate(place + 1);
        }
    }

    /// Whether some version has a row whose key in the index of this number is the given one.
    pub fn bears(&self, table: &Table, index: u8, key: &[u8]) -> Result<bool, NoMemory>
        ensures { IfOk result (λ answer. answer ≡ bears table.now index key.now self.now) }
    {
        match table.indexes.get(usize::from(index)) {
            Some(index) => some_has_entry(self.list(), table, index, key),
            None => Ok(false),
        }
    }

    /// The bytes of the record's cell. A number of versions that has no four bytes is want of memory.
    pub fn encode(&self) -> Result<Bytes, NoMemory>
        ensures bytes { IfOk result (λ bytes. bytes ≡ spelling self.now) }
        ensures fits { OnOk result (FitsCell self.now) }
    {
        let count = u32::try_from(self.versions.len()).map_err(|_| NoMemory)?;
        let mut bytes = Bytes::new(self.versions.allocator());
        bytes.push(1)?;
        write_u32(&mut bytes, count)?;
        write_many(self.versions.as_slice(), &mut bytes)?;
        Ok(bytes)
    }

    /// The versions whose spelling the bytes are, all of them. No bytes at all are no versions.
    pub fn decode(alloc: Global, bytes: &[u8]) -> Result<Versions, CellFault>
        ensures spelled { IfOk result (λ versions. IsSpelled bytes.now versions) }
        ensures fits { IfOk result (λ versions. FitsCell versions) }
        ensures bad { IsErrOf result CellFault.BadCell → (versions : List TheVersion) → FitsCell versions → IsSpelled bytes.now versions → ⊥ }
    {
        match read_cell(alloc, bytes) {
            Ok(versions) => Ok(versions),
            Err(ReadFault::Bad) => Err(CellFault::BadCell),
            Err(ReadFault::NoMemory) => Err(CellFault::NoMemory),
        }
    }
}

/// How many versions stand before the first one that is in the set.
fn count_outside(versions: &[Version], set: &Descriptor) -> usize
    ensures { result ≡ prefix_len (λ version. not (has set.now version.tid)) versions.now }
{
    versions
        .iter()
        .take_while(|version| !set.has(version.tid))
        .count()
}

/// How many versions stand before the first one that isn't in the set.
fn count_inside(versions: &[Version], set: &Descriptor) -> usize
    ensures { result ≡ prefix_len (λ version. has set.now version.tid) versions.now }
{
    versions
        .iter()
        .take_while(|version| set.has(version.tid))
        .count()
}

/// How many versions stand before that of the tid.
fn count_others(versions: &[Version], tid: Tid) -> usize
    ensures { result ≡ prefix_len (λ version. not (version.tid == tid)) versions.now }
{
    versions
        .iter()
        .take_while(|version| version.tid != tid)
        .count()
}

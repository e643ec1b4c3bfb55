//! The commits, and where each record was written.

ghost use Rattle.std.specs.Prelude.{List, ◌≡◌, ◌+◌, ◌++◌, ◌∷◌, [], ℕ, IfOk, OnOk, drop, length, take};
ghost use Rattle.std.specs.Option.{option_copied};
ghost use Rattle.std.specs.FinMap as finmap;
ghost use Rattle.tl_write.specs.Tables as tables;
ghost use Rattle.tl_isolation.specs.declared.state.Commit.{Commit};
ghost use Rattle.tl_isolation.specs.State.{tables_after};
ghost use Rattle.tl_si.specs.Places as places;

use std::alloc::Global;
use std::marker::Model;
use tl_base::{Bytes, Duplicate, Items, NoMemory};
use tl_isolation::Commit;
use tl_map::SortedMap;
use tl_schema::RECORD;
use tl_values::Row;
use tl_write::Write;

/// Where a record was written: which commit, and which of its writes, both from 0.
#[derive(Clone, Copy, Debug, PartialEq, Eq)]
pub struct Place {
    pub commit: usize,
    pub at: usize,
}

/// The commits in order, with the places where each record was written, the oldest first. So what a record was after
/// the first commits, as many as you like, is found without the others.
#[derive(Drop)]
pub struct Past {
    commits: Items<Commit>,
    records: SortedMap<Items<Place>>,
}

impl Model for Past {
    ghost use Rattle.std.specs.Prelude.{List};
    ghost use Rattle.tl_isolation.specs.declared.state.Commit.{Commit};

    ghost Value = { List Commit };

    ghost use Rattle.tl_si.specs.Places.{AreFound};

    ghost view = { λ past. past.commits };

    ghost invariant = { λ past. AreFound past.commits past.records };
}

impl Past {
    pub fn new(alloc: Global) -> Past
        ensures { result ≡ [] }
    {
        Past {
            commits: Items::new(alloc),
            records: SortedMap::new(alloc),
        }
    }

    pub fn len(&self) -> usize
        ensures { result ≡ length self.now }
    {
        self.commits.len()
    }

    /// The commits but for the first so many.
    pub fn later(&self, first: u32) -> &[Commit]
        ensures { result.now ≡ drop first self.now }
    {
        let commits = self.commits.as_slice();
        let first = first as usize;
        if first < commits.len() {
            &commits[first..]
        } else {
            &[]
        }
    }

    pub fn into_commits(self) -> Items<Commit>
        ensures { result ≡ self }
    {
        let Past { commits, .. } = self;
        commits
    }

    /// The commits with one more.
    pub fn with(self, commit: Commit) -> Result<Past, NoMemory>
        ensures { IfOk result (λ past. past ≡ self ++ commit ∷ []) }
    {
        let Past {
            mut commits,
            records,
        } = self;
        let records = with_places(
            commits.allocator(),
            records,
            commits.len(),
            commit.writes.as_slice(),
        )?;
        commits.push(commit)?;
        Ok(Past { commits, records })
    }

    /// The records of the table of this number after the first commits, so many of them.
    pub fn records(&self, alloc: Global, number: u8, first: u32) -> Result<SortedMap<Row>, NoMemory>
        ensures { IfOk result (λ table. table ≡ finmap.retain_keys (tables_after (take first self.now)) (tables.is_in number)) }
    {
        records_after(alloc, number, first, self.commits.as_slice(), &self.records)
    }
}

/// The records with the places of one commit more.
fn with_places(
    alloc: Global,
    mut records: SortedMap<Items<Place>>,
    commit: usize,
    writes: &[Write],
) -> Result<SortedMap<Items<Place>>, NoMemory>
    ensures { IfOk result (λ more. (key : List ℕ) → places.places_of more key ≡ places.places_of records key ++ places.places_in commit 0 key writes.now) }
{
    for (at, write) in writes.iter().enumerate() {
        records = with_place(alloc, records, &write.key, Place { commit, at })?;
    }
    Ok(records)
}

fn with_place(
    alloc: Global,
    mut records: SortedMap<Items<Place>>,
    key: &Bytes,
    place: Place,
) -> Result<SortedMap<Items<Place>>, NoMemory>
    ensures { IfOk result (λ more. places.HasMore records key.now place more) }
{
    let key = key.copy()?;
    let mut found = records.remove(&key).unwrap_or(Items::new(alloc));
    found.push(place)?;
    records.insert(key, found)?;
    Ok(records)
}

/// The records of the table of this number after the first commits.
fn records_after(
    alloc: Global,
    number: u8,
    first: u32,
    commits: &[Commit],
    records: &SortedMap<Items<Place>>,
) -> Result<SortedMap<Row>, NoMemory>
    requires { places.AreFound commits.now records.now }
    ensures { IfOk result (λ table. table ≡ finmap.retain_keys (tables_after (take first commits.now)) (tables.is_in number)) }
{
    let from = Bytes::from_slice(alloc, &[RECORD, number])?;
    let before = above(alloc, number)?;
    let mut table = SortedMap::new(alloc);
    for (key, found) in records.range(&from, &before) {
        if is_in(number, key) {
            put_row(&mut table, key, row_after(commits, first, found.as_slice()))?;
        }
    }
    Ok(table)
}

/// A key above those of all records in the table of this number.
fn above(alloc: Global, number: u8) -> Result<Bytes, NoMemory>
    ensures { IfOk result (λ key. key ≡ places.above number) }
{
    if number < 255 {
        Bytes::from_slice(alloc, &[RECORD, number + 1])
    } else {
        Bytes::from_slice(alloc, &[RECORD + 1])
    }
}

/// Whether this is the key of a record in the table of this number.
pub fn is_in(number: u8, key: &Bytes) -> bool
    ensures { result ≡ tables.is_in number key.now }
{
    key.as_slice().starts_with(&[RECORD, number])
}

fn put_row(table: &mut SortedMap<Row>, key: &Bytes, row: Option<&Row>) -> Result<(), NoMemory>
    ensures { OnOk result (table.new ≡ places.with_row table.old key.now (option_copied row.entry)) }
{
    match row {
        Some(row) => table.put(key, row.copy()?),
        None => Ok(()),
    }
}

/// The row of a record that was written at these places, after the first commits.
fn row_after<'a>(commits: &'a [Commit], first: u32, found: &[Place]) -> Option<&'a Row>
    ensures { option_copied result ≡ places.row_after commits.now first found.now }
{
    let place = latest(first, found)?;
    let write = write_at(commits, *place)?;
    write.row.as_ref()
}

fn write_at(commits: &[Commit], place: Place) -> Option<&Write>
    ensures { option_copied result ≡ places.write_at commits.now place }
{
    let commit = commits.get(place.commit)?;
    commit.writes.get(place.at)
}

/// The last of the places that is among the first commits.
fn latest(first: u32, found: &[Place]) -> Option<&Place>
    ensures { option_copied result ≡ places.latest first found.now }
{
    let first = first as usize;
    found.iter().rev().find(|place| place.commit < first)
}

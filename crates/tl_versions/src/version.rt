ghost use Rattle.std.specs.Prelude.{◌≡◌, ◌++◌, OnOk};
ghost use Rattle.tl_codec.specs.Reading.{Gives};
ghost use Rattle.tl_schema.specs.Reading.{read_row};
ghost use Rattle.tl_schema.specs.Row.{row_spelling};
ghost use Rattle.tl_versions.specs.Cell.{AreChanges, FitsChange, FitsVersion, IsShortChange, IsShortRow, change_spelling, version_spelling};
ghost use Rattle.tl_versions.specs.Reading.{read_change, read_present, read_version};
ghost use Rattle.tl_versions.specs.VersionReading.{version_again, version_taken};

use std::alloc::Global;
use tl_base::{Bytes, NoMemory, Tid};
use tl_codec::{ReadFault, Spelled, read_span, read_u16, read_u64, write_u16, write_u64};
use tl_schema::{RowFault, row_bytes, row_of};
use tl_values::{Row, prove_values};

/// What a transaction wrote to a record.
#[derive(Debug, Drop)]
pub struct Version {
    pub tid: Tid,
    /// `None` where it deleted the record.
    pub row: Option<Row>,
}

/// The tid in 8 bytes; then 0 for a deletion, or 1 and the row behind the number of its bytes.
impl Spelled for Version {
    ghost Fits = { FitsVersion };

    ghost spelling = { version_spelling };

    ghost reading = { read_version };

    ghost taken = { version_taken };

    ghost again = { version_again };

    fn write(&self, out: &mut Bytes) -> Result<(), NoMemory> {
        write_u64(out, self.tid)?;
        write_change(out, &self.row)?;
        Ok(())
    }

    #[tactic(auto, unfolding(crate::specs::Reading::read_version))]
    fn read(alloc: Global, bytes: &[u8]) -> Result<(Version, &[u8]), ReadFault> {
        let (tid, rest) = read_u64(bytes)?;
        let (row, rest) = read_change(alloc, rest)?;
        Ok((Version { tid, row }, rest))
    }
}

fn write_change(out: &mut Bytes, row: &Option<Row>) -> Result<(), NoMemory>
    requires { AreChanges row.now }
    ensures { OnOk result (out.new ≡ out.old ++ change_spelling row.now) }
{
    match row {
        None => out.push(0)?,
        Some(row) => write_present(out, row)?,
    }
    Ok(())
}

fn write_present(out: &mut Bytes, row: &Row) -> Result<(), NoMemory>
    requires { FitsChange row.now }
    ensures { OnOk result (out.new ≡ out.old ++ change_spelling (Some row.now)) }
{
    let bytes = row_bytes(row.allocator(), row)?;
    out.push(1)?;
    write_u16(out, bytes.len() as u16)?;
    out.extend_from_slice(bytes.as_slice())?;
    Ok(())
}

#[tactic(auto, unfolding(crate::specs::Reading::read_change))]
fn read_change(alloc: Global, bytes: &[u8]) -> Result<(Option<Row>, &[u8]), ReadFault>
    ensures { Gives (λ x. (x.0, x.1.now)) result (read_change bytes.now) }
{
    match bytes {
        [0, rest @ ..] => Ok((None, rest)),
        [1, rest @ ..] => read_present(alloc, rest),
        [] | [_, ..] => Err(ReadFault::Bad),
    }
}

#[tactic(auto, unfolding(crate::specs::Reading::read_present))]
fn read_present(alloc: Global, bytes: &[u8]) -> Result<(Option<Row>, &[u8]), ReadFault>
    ensures { Gives (λ x. (x.0, x.1.now)) result (read_present bytes.now) }
{
    let (count, rest) = read_u16(bytes)?;
    let (text, rest) = read_span(rest, usize::from(count))?;
    let row = read_row(alloc, text)?;
    Ok((Some(row), rest))
}

fn read_row(alloc: Global, bytes: &[u8]) -> Result<Row, ReadFault>
    ensures { Gives (λ row. row) result (read_row bytes.now) }
{
    match row_of(alloc, bytes) {
        Ok(row) => Ok(row),
        Err(RowFault::BadRow) => Err(ReadFault::Bad),
        Err(RowFault::NoMemory) => Err(ReadFault::NoMemory),
    }
}

/// That the version has a spelling. It does nothing.
pub fn prove_version(version: &Version)
    requires { IsShortChange version.now.row }
    ensures { FitsVersion version.now }
{
    let _tid = version.tid;
    prove_change(&version.row);
}

fn prove_change(row: &Option<Row>)
    requires { IsShortChange row.now }
    ensures { AreChanges row.now }
{
    match row {
        Some(row) => prove_row(row),
        None => {}
    }
}

fn prove_row(row: &Row)
    requires { IsShortRow row.now }
    ensures { FitsChange row.now }
{
    prove_values(row.as_slice());
}

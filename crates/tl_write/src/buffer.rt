ghost use Rattle.std.specs.Prelude.{◌≡◌, [], IsTrue, IfOk, OnOk, OnErr, length, map};
ghost use Rattle.tl_write.specs.Own.{is_rising, is_written, put_write, put_writes};
ghost use Rattle.tl_write.specs.Tables.{laid_rows};

use crate::lay::laid_rows;
use crate::place;
use crate::write::{Effect, Write};
use std::alloc::Global;
use std::marker::Model;
use tl_base::{Bytes, Duplicate, Keys, NoMemory};
use tl_schema::Table;
use tl_values::Rows;

/// The own writes of a transaction: the latest of each record that it wrote, in rising order of record keys.
#[derive(Drop)]
pub struct Buffer {
    writes: Vec<Write>,
}

impl Model for Buffer {
    ghost use Rattle.std.specs.Prelude.{IsTrue, List};
    ghost use Rattle.tl_write.specs.declared.write.Write.{Write};
    ghost use Rattle.tl_write.specs.Own.{is_rising};

    ghost Value = { List Write };

    ghost view = { λ buffer. buffer.writes.items };

    ghost invariant = { λ buffer. IsTrue (is_rising buffer.writes.items) };
}

impl Buffer {
    pub fn new(alloc: Global) -> Buffer
        ensures { result ≡ [] }
    {
        Buffer {
            writes: Vec::new(alloc),
        }
    }

    pub fn writes(&self) -> &[Write]
        ensures writes { result.now ≡ self.now }
        ensures rising { IsTrue (is_rising self.now) }
    {
        self.writes.as_slice()
    }

    /// The record keys, in rising order.
    pub fn keys(&self) -> Result<Keys, NoMemory>
        ensures { IfOk result (λ keys. keys ≡ map (λ w. w.key) self.now) }
    {
        let mut keys = Keys::new(*self.writes.allocator());
        for write in self.writes.as_slice() {
            keys.push(write.key.copy()?)?;
        }
        Ok(keys)
    }

    /// Whether a write of the record is among them.
    pub fn contains(&self, key: &Bytes) -> bool
        ensures written { result ≡ is_written key.now self.now }
        ensures rising { IsTrue (is_rising self.now) }
    {
        place::is_written(key, self.writes.as_slice())
    }

    /// How many records are written.
    pub fn len(&self) -> usize
        ensures { result ≡ length self.now }
    {
        self.writes.len()
    }

    /// Puts one write in its place, in that of the one of its record where there is one. Without memory the writes
    /// stay as they were.
    pub fn put(&mut self, write: Write) -> Result<(), NoMemory>
        ensures ok { OnOk result (self.new ≡ put_write write self.old) }
        ensures err { OnErr result (self.new ≡ self.old) }
    {
        self.writes.reserve(1)?;
        place::put_write(&mut self.writes, write);
        Ok(())
    }

    /// Puts each write of a change in its place. Without memory the writes stay as they were.
    pub fn keep(&mut self, effect: Effect) -> Result<(), NoMemory>
        ensures ok { OnOk result (self.new ≡ put_writes effect.writes self.old) }
        ensures err { OnErr result (self.new ≡ self.old) }
    {
        let Effect { count: _, writes } = effect;
        self.writes.reserve(writes.len())?;
        for write in writes.into_vec() {
            place::put_write(&mut self.writes, write);
        }
        Ok(())
    }

    /// The rows of the table of this number after its own writes: they are replaced, gone and added by record key, and
    /// stand in rising order of record keys. Of two with one key the later counts.
    pub fn lay(&self, number: u8, table: &Table, rows: Rows) -> Result<Rows, NoMemory>
        ensures { IfOk result (λ laid. laid ≡ laid_rows number table.now self.now rows) }
    {
        laid_rows(
            *self.writes.allocator(),
            number,
            table,
            self.writes.as_slice(),
            rows,
        )
    }

    /// The writes, which take no memory to be handed on.
    pub fn into_vec(self) -> Vec<Write>
        ensures writes { result.items ≡ self }
        ensures rising { IsTrue (is_rising self) }
    {
        let Buffer { writes } = self;
        writes
    }
}

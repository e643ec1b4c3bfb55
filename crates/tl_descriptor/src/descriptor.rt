ghost use Rattle.std.specs.Prelude.{◌≡◌, ◌≤◌, ◌+◌, ◌^◌, [], length, true, false, All, IfOk, OnOk, OnErr, ◌↔◌, IsTrue};
ghost use Rattle.std.specs.Result.{IsErrOf};
ghost use Rattle.std.specs.List.{list_all};
ghost use Rattle.tl_descriptor.specs.Reading.{FitsSet, spelling};
ghost use Rattle.tl_descriptor.specs.Tids.{IsCanonical, IsWithin, TidSet, begins, covers, has, inserted, raised};

use crate::fault::{DescriptorFault, InsertFault};
use crate::reading::read_set;
use crate::run::Run;
use crate::runs::{find_run, put, run_after};
use std::alloc::Global;
use std::marker::Model;
use tl_base::{Bytes, Duplicate, Items, NoMemory, Tid};
use tl_codec::{ReadFault, write_many, write_u32, write_u64};

/// A set of tids: all of them up to a base, and those in runs above it. No tid is above 2^62. It is kept in the one
/// way in which the base is as high, and the runs are as few, as they can be.
#[derive(Debug, Drop, PartialEq, Eq)]
pub struct Descriptor {
    base: Tid,
    runs: Items<Run>,
}

impl Model for Descriptor {
    ghost use Rattle.tl_descriptor.specs.Tids.{IsCanonical, TidSet};

    ghost Value = { TidSet };

    ghost view = { λ set. record { base = set.base; runs = set.runs } };

    ghost invariant = { λ set. IsCanonical (record { base = set.base; runs = set.runs }) };

    ghost inverse = { λ set. record { base = set.base; runs = set.runs } };
}

impl Descriptor {
    /// The tids up to this one, which is at most 2^62.
    pub fn new(alloc: Global, base: Tid) -> Descriptor
        requires { base ≤ 2 ^ 62 }
        ensures { result ≡ record { base = base; runs = [] } }
    {
        Descriptor {
            base,
            runs: Items::new(alloc),
        }
    }

    /// The set of the tids up to the base and of those in the runs, where that is the one way to write it.
    pub(crate) fn from_parts(base: Tid, runs: Items<Run>) -> Descriptor
        requires { IsCanonical (record { base = base; runs = runs }) }
        ensures { result ≡ record { base = base; runs = runs } }
    {
        Descriptor { base, runs }
    }

    /// That the set is kept in the one way. It does nothing.
    pub fn prove_canonical(&self)
        ensures { IsCanonical self.now }
    {
        let _ = &self.base;
    }

    pub fn has(&self, tid: Tid) -> bool
        ensures { result ≡ has self.now tid }
    {
        let run = Run {
            low: tid,
            high: tid,
        };
        self.covers(&run)
    }

    /// Whether all tids of the run are in the set.
    fn covers(&self, run: &Run) -> bool
        requires { run.now.low ≤ run.now.high }
        ensures { result ≡ covers self.now run.now }
    {
        run.high <= self.base || find_run(self.base, &self.runs, run)
    }

    /// Puts the tid, which is at most 2^62, into the set. `Present` comes exactly where it is there already.
    pub fn insert(&mut self, tid: Tid) -> Result<(), InsertFault>
        requires { tid ≤ 2 ^ 62 }
        ensures ok { OnOk result (self.new ≡ inserted self.old tid) }
        ensures err { OnErr result (self.new ≡ self.old) }
        ensures absent { OnOk result (has self.old tid ≡ false) }
        ensures present { has self.old tid ≡ true → IsErrOf result InsertFault.Present }
        ensures only_present { IsErrOf result InsertFault.Present → has self.old tid ≡ true }
    {
        if self.has(tid) {
            return Err(InsertFault::Present);
        }
        if tid == self.base + 1 {
            self.raise(tid);
        } else {
            put(self.base, &mut self.runs, tid)?;
        }
        Ok(())
    }

    /// Raises the base by one, and further to the end of a run that begins right after it.
    fn raise(&mut self, tid: Tid)
        requires next { tid ≡ self.old.base + 1 }
        requires fits { tid ≤ 2 ^ 62 }
        ensures { self.new ≡ raised tid self.old.runs }
    {
        match run_after(self.runs.as_slice(), 0, tid) {
            Some(run) => {
                self.base = run.high;
                self.runs.remove(0);
            }
            None => self.base = tid,
        }
    }

    /// Whether each tid of this set is in the other.
    pub fn begins(&self, other: &Descriptor) -> bool
        ensures value { result ≡ begins self.now other.now }
        ensures exact { IsTrue result ↔ IsWithin self.now other.now }
    {
        self.prove_canonical();
        other.prove_canonical();
        other.covers_all(self)
    }

    fn covers_all(&self, other: &Descriptor) -> bool
        ensures { result ≡ begins other.now self.now }
    {
        other.base <= self.base && self.covers_runs(other.runs.as_slice())
    }

    fn covers_runs(&self, runs: &[Run]) -> bool
        requires { All (λ run. run.low ≤ run.high) runs.now }
        ensures { result ≡ list_all (covers self.now) runs.now }
    {
        for run in runs {
            if !self.covers(run) {
                return false;
            }
        }
        true
    }

    pub fn copy(&self) -> Result<Descriptor, NoMemory>
        ensures { IfOk result (λ copy. copy ≡ self.now) }
    {
        let runs = self.runs.copy()?;
        Ok(Descriptor {
            base: self.base,
            runs,
        })
    }

    /// The one spelling of the set. A number of runs that has no four bytes is want of memory.
    pub fn encode(&self) -> Result<Bytes, NoMemory>
        ensures bytes { IfOk result (λ bytes. bytes ≡ spelling self.now) }
        ensures fits { OnOk result (FitsSet self.now) }
    {
        let count = u32::try_from(self.runs.len()).map_err(|_| NoMemory)?;
        let mut bytes = Bytes::new(self.runs.allocator());
        write_u64(&mut bytes, self.base)?;
        write_u32(&mut bytes, count)?;
        write_many(self.runs.as_slice(), &mut bytes)?;
        Ok(bytes)
    }

    /// The set whose spelling the bytes are, all of them.
    pub fn decode(alloc: Global, bytes: &[u8]) -> Result<Descriptor, DescriptorFault>
        ensures spelled { IfOk result (λ set. bytes.now ≡ spelling set) }
        ensures fits { IfOk result (λ set. FitsSet set) }
        ensures bad { IsErrOf result DescriptorFault.BadDescriptor → (set : TidSet) → FitsSet set → bytes.now ≡ spelling set → ⊥ }
    {
        match read_set(alloc, bytes) {
            Ok(set) => Ok(set),
            Err(ReadFault::Bad) => Err(DescriptorFault::BadDescriptor),
            Err(ReadFault::NoMemory) => Err(DescriptorFault::NoMemory),
        }
    }
}

impl Duplicate for Descriptor {
    fn copy(&self) -> Result<Descriptor, NoMemory> {
        Descriptor::copy(self)
    }
}

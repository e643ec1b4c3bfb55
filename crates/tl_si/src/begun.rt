//! The numbers of the transactions so far.

ghost use Rattle.std.specs.Prelude.{◌≡◌, ◌==◌, ◌++◌, ◌∷◌, [], IfOk};
ghost use Rattle.std.specs.List.{list_any};

use std::alloc::Global;
use std::collections::BTreeSet;
use std::marker::Model;
use tl_base::{Items, NoMemory, Tid};

/// The numbers of all transactions so far, in the order in which they began.
#[derive(Drop)]
pub struct Begun {
    tids: Items<Tid>,
    set: BTreeSet<Tid>,
}

impl Model for Begun {
    ghost use Rattle.std.specs.Prelude.{List, ℕ};

    ghost Value = { List ℕ };

    ghost use Rattle.tl_si.specs.Numbers.{AreSame};

    ghost view = { λ begun. begun.tids };

    ghost invariant = { λ begun. AreSame begun.tids begun.set };
}

impl Begun {
    pub fn new(alloc: Global) -> Begun
        ensures { result ≡ [] }
    {
        Begun {
            tids: Items::new(alloc),
            set: BTreeSet::new(alloc),
        }
    }

    pub fn contains(&self, tid: Tid) -> bool
        ensures { result ≡ list_any (λ begun. begun == tid) self.now }
    {
        self.set.contains(&tid)
    }

    /// The numbers with one more.
    pub fn with(self, tid: Tid) -> Result<Begun, NoMemory>
        ensures { IfOk result (λ begun. begun ≡ self ++ tid ∷ []) }
    {
        let Begun { mut tids, mut set } = self;
        set.insert(tid)?;
        tids.push(tid)?;
        Ok(Begun { tids, set })
    }

    pub fn into_tids(self) -> Items<Tid>
        ensures { result ≡ self }
    {
        let Begun { tids, .. } = self;
        tids
    }
}

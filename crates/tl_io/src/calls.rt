ghost use Rattle.std.specs.Prelude.{◌≡◌, ◌≤◌, ◌↔◌, IsTrue, IsErr, is_err, OnErr};
ghost use Rattle.tl_io.specs.Faults.{Rose, next};
ghost use Rattle.tl_io.specs.Memory.{after_call, is_listed, none_made};

use crate::failed::Failed;
use std::marker::Model;
use tl_base::Items;

/// The numbers of calls, counted from 1.
pub type Calls = Items<u32>;

/// The calls made, those that are to fail, and how many failed.
#[derive(Debug, Drop)]
pub struct CallCount {
    failing: Calls,
    made: u64,
    failed: u64,
}

impl Model for CallCount {
    ghost use Rattle.tl_io.specs.Memory.{CallsSeen};

    ghost Value = { CallsSeen };

    ghost view = { λ count. record { failing = count.failing; made = count.made; failed = count.failed } };
}

impl CallCount {
    pub fn new(failing: Calls) -> CallCount
        ensures { result ≡ none_made failing }
    {
        CallCount {
            failing,
            made: 0,
            failed: 0,
        }
    }

    /// Counts a call, which fails where it is one of those that are to fail.
    pub fn begin(&mut self) -> Result<(), Failed>
        ensures listed { IsErr result ↔ IsTrue (is_listed self.old.failing (next self.old.made)) }
        ensures calls { self.new ≡ after_call self.old (is_err result) }
        ensures counted { OnErr result (Rose self.old.failed self.new.failed) }
        ensures never_falls { self.old.failed ≤ self.new.failed }
    {
        self.made = self.made.saturating_add(1);
        if self.is_listed() {
            return Err(self.fail());
        }
        Ok(())
    }

    /// Whether the call that was counted last is one of those that are to fail.
    fn is_listed(&self) -> bool
        ensures { result ≡ is_listed self.now.failing self.now.made }
    {
        self.failing
            .iter()
            .any(|call| u64::from(*call) == self.made)
    }

    /// Counts a failed call.
    pub fn fail(&mut self) -> Failed
        ensures one_more { self.new ≡ record self.old { failed = next self.old.failed } }
        ensures counted { Rose self.old.failed self.new.failed }
        ensures never_falls { self.old.failed ≤ self.new.failed }
    {
        self.failed = self.failed.saturating_add(1);
        Failed
    }
}

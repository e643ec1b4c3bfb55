//! The low-water marks.

ghost use Rattle.std.specs.Prelude.{◌≡◌, ◌≤◌, true, fold, length, replicate, slice_set, IfOk};
ghost use Rattle.std.specs.List.{AllByRecursion};
ghost use Rattle.tl_collect.specs.Floors.{StandsIn, least_of, lower};
ghost use Rattle.tl_descriptor.specs.Tids.{IsCanonical, begins};
ghost use Rattle.tl_manager.specs.Floor.{IsChain};
ghost use Rattle.tl_manager.specs.State.{opening_copy};

use std::alloc::Global;
use std::marker::Model;
use tl_base::{Items, NoMemory};
use tl_descriptor::Descriptor;

/// The low-water marks that a node keeps, one for each manager.
#[derive(Debug, Drop)]
pub struct Floors {
    // By manager; there is always one.
    marks: Items<Descriptor>,
}

/// The marks by manager.
impl Model for Floors {
    ghost use Rattle.std.specs.Prelude.{◌≤◌, List, length};
    ghost use Rattle.std.specs.Coded.{coded_list};
    ghost use Rattle.tl_descriptor.specs.Tids.{TidSet};
    ghost use Rattle.tl_manager.specs.StateCode.{set_code};

    ghost Value = { List TidSet };

    ghost coded = { coded_list set_code };

    ghost view = { λ floors. floors.marks };

    ghost invariant = { λ floors. 1 ≤ length floors.marks };
}

/// The mark, where it begins the least so far.
fn lower<'a>(least: &'a Descriptor, mark: &'a Descriptor) -> &'a Descriptor
    ensures { result.now ≡ lower least.now mark.now }
{
    if mark.begins(least) { mark } else { least }
}

/// The least of the first mark and the others.
fn least_of<'a>(first: &'a Descriptor, others: &'a [Descriptor]) -> &'a Descriptor
    ensures { result.now ≡ fold lower first.now others.now }
{
    let mut least = first;
    for mark in others {
        least = lower(least, mark);
    }
    least
}

impl Floors {
    /// For so many managers, at least one; each mark is the set of tid 0 alone.
    pub fn new(alloc: Global, managers: u8) -> Result<Floors, NoMemory>
        requires { 1 ≤ managers }
        ensures { IfOk result (λ floors. floors ≡ replicate managers opening_copy) }
    {
        let mut marks = Items::new(alloc);
        for _ in 0..managers {
            marks.push(Descriptor::new(alloc, 0))?;
        }
        Ok(Floors { marks })
    }

    /// The mark of this manager, numbered from 0, from now on; a manager that isn't among them changes nothing.
    pub fn learn(&mut self, manager: u8, floor: Descriptor)
        ensures { self.new ≡ slice_set self.old manager floor }
    {
        let at = usize::from(manager);
        if at < self.marks.len() {
            self.marks.set(at, floor);
        }
    }

    /// Of the marks one that begins them all, where of any two one begins the other.
    pub fn least(&self) -> &Descriptor
        ensures exact { result.now ≡ least_of self.now }
        ensures is_one { StandsIn self.now result.now }
        ensures begins_all { AllByRecursion IsCanonical self.now → IsChain self.now → AllByRecursion (λ mark. begins result.now mark ≡ true) self.now }
    {
        self.lowest()
    }

    /// Each mark in turn, where it begins the least so far.
    fn lowest(&self) -> &Descriptor
        ensures exact { result.now ≡ least_of self.now }
        ensures some { 1 ≤ length self.now }
    {
        let marks = self.marks.as_slice();
        least_of(&marks[0], &marks[1..])
    }
}

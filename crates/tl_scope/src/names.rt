//! Lists of names.

ghost use Rattle.std.specs.Prelude.{◌≡◌, [], ◌∷◌, ◌||◌, flat_map, List, IfOk, OnOk};
ghost use Rattle.tl_grammar.specs.declared.name.Name.{Name};
ghost use Rattle.tl_scope.specs.Fault.{earliest, fault_if, least};
ghost use Rattle.tl_scope.specs.Named.{columns_faults, is_among, repeated_after, repeated_faults, unknown_faults};
ghost use Rattle.tl_scope.specs.Scope.{same};

use crate::fault::{BindFault, BindKind, earliest, fault_if};
use crate::scope::column_place;
use std::alloc::Global;
use std::collections::BTreeSet;
use std::marker::Model;
use tl_base::{Duplicate, NoMemory, Text};
use tl_grammar::Name;
use tl_schema::Column;

/// A set of names.
#[derive(Drop)]
pub struct Names {
    names: BTreeSet<Text>,
}

impl Model for Names {
    ghost use Rattle.std.specs.Prelude.{List, ℕ};

    ghost Value = { List (List ℕ) };

    ghost view = { λ s. s.names.keys };
}

impl Names {
    pub fn new(alloc: Global) -> Names
        ensures { result ≡ [] }
    {
        Names {
            names: BTreeSet::new(alloc),
        }
    }

    #[tactic(auto, using(crate::proofs::Sets::among_keys))]
    pub fn contains(&self, name: &Text) -> bool
        ensures { result ≡ is_among self.now name.now }
    {
        self.names.contains(name)
    }

    #[tactic(auto, using(crate::proofs::Sets::among_keys))]
    pub fn insert(&mut self, name: &Text) -> Result<(), NoMemory>
        ensures { OnOk result ((other : _) → is_among self.new other ≡ (same other name.now || is_among self.old other)) }
    {
        self.names.insert(name.copy()?)?;
        Ok(())
    }
}

/// The first fault of names that are given twice, name by name.
#[derive(Drop)]
pub struct Repeats {
    seen: Names,
    fault: Option<BindFault>,
}

impl Repeats {
    pub fn new(alloc: Global) -> Repeats
        ensures { result ≡ record { seen = []; fault = None } }
    {
        Repeats {
            seen: Names::new(alloc),
            fault: None,
        }
    }

    pub fn take(&mut self, name: &Name) -> Result<(), NoMemory>
        ensures { OnOk result ((more : List Name) → earliest self.new.fault (least (repeated_after self.new.seen more)) ≡ earliest self.old.fault (least (repeated_after self.old.seen (name.now ∷ more)))) }
    {
        let again = fault_if(self.seen.contains(&name.text), name.at, BindKind::Twice);
        self.seen.insert(&name.text)?;
        self.fault = earliest(self.fault, again);
        Ok(())
    }

    pub fn fault(&self) -> Option<BindFault>
        ensures { result ≡ self.now.fault }
    {
        self.fault
    }
}

/// The first fault of columns that INSERT or an index names.
#[tactic(auto, using(crate::proofs::Faults::least_append))]
pub fn columns_fault(
    alloc: Global,
    columns: &[Column],
    names: &[Name],
) -> Result<Option<BindFault>, NoMemory>
    ensures { IfOk result (λ fault. fault ≡ least (columns_faults columns.now names.now)) }
{
    let repeated = repeated_fault(alloc, names)?;
    Ok(earliest(unknown_fault(columns, names), repeated))
}

/// The first name that is given twice.
#[tactic(auto, using(crate::proofs::Faults::earliest_none))]
pub fn repeated_fault(alloc: Global, names: &[Name]) -> Result<Option<BindFault>, NoMemory>
    ensures { IfOk result (λ fault. fault ≡ least (repeated_faults names.now)) }
{
    let mut repeats = Repeats::new(alloc);
    for name in names {
        repeats.take(name)?;
    }
    Ok(repeats.fault())
}

#[tactic(auto, using(crate::proofs::Faults::earliest_none, crate::proofs::Faults::loop_each))]
fn unknown_fault(columns: &[Column], names: &[Name]) -> Option<BindFault>
    ensures { result ≡ least (flat_map (unknown_faults columns.now) names.now) }
{
    let mut fault = None;
    for name in names {
        fault = earliest(fault, unknown_name_fault(columns, name));
    }
    fault
}

fn unknown_name_fault(columns: &[Column], name: &Name) -> Option<BindFault>
    ensures { result ≡ least (unknown_faults columns.now name.now) }
{
    let unknown = column_place(columns, &name.text).is_none();
    fault_if(unknown, name.at, BindKind::UnknownColumn)
}

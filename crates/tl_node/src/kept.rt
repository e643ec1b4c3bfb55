//! What a node keeps over its statements.

ghost use Rattle.std.specs.Prelude.{◌≡◌, ◌<◌, ◌+◌, ◌++◌, ◌∷◌, [], IfOk, OnErr, OnOk, Some, length, slice_get, slice_set, true};
ghost use Rattle.std.specs.Prelude.{vec_capacity, vec_len};
ghost use Rattle.std.specs.Option.{option_copied};
ghost use Rattle.tl_manager.specs.declared.request.ManagerRequest.TheVariants as request;
ghost use Rattle.tl_ask.specs.Asked.{asked};
ghost use Rattle.tl_journal.specs.Ask.{AskManager};
ghost use Rattle.tl_journal.specs.Bytes.{home_of};
ghost use Rattle.tl_node.specs.Named.{AreNamed, AreNamed-prop};

use std::alloc::Global;
use tl_answer::copy_answer;
use tl_ask::{Asked, Layout, ask_manager};
use tl_base::{Duplicate, Items, NoMemory, NodeId};
use tl_collect::Floors;
use tl_descriptor::Descriptor;
use tl_isolation::{Answer, Bound, Said};
use tl_manager::ManagerRequest;
use tl_schema::Catalog;

/// A node but what it is at.
#[derive(Drop)]
pub struct Core {
    pub alloc: Global,
    pub layout: Layout,
    pub number: NodeId,
    pub catalog: Catalog,
    pub statements: Items<Bound>,
    pub answers: Vec<Answer>,
    pub floors: Floors,
    /// How often another manager was asked for its low-water mark.
    pub asked_others: u64,
    pub ghost named: { AreNamed catalog statements } by { AreNamed-prop catalog statements },
}

impl Core {
    /// The statement behind the answered ones.
    pub fn present(&self) -> Option<&Bound>
        ensures { option_copied result ≡ slice_get self.now.statements (length self.now.answers.items) }
    {
        self.statements.get(self.answers.len())
    }

    /// The same, where there is one.
    pub fn current(&self) -> &Bound
        requires { length self.now.answers.items < length self.now.statements }
        ensures { slice_get self.now.statements (length self.now.answers.items) ≡ Some result.now }
    {
        &self.statements.as_slice()[self.answers.len()]
    }

    /// Its manager.
    pub fn home(&self) -> u8
        ensures { result ≡ home_of self.now.layout self.now.number }
    {
        self.layout.home_of(self.number)
    }

    /// A manager told its low-water mark.
    pub fn learn(&mut self, manager: u8, floor: &Descriptor) -> Result<(), NoMemory>
        ensures ok { OnOk result (self.new ≡ record self.old { floors = slice_set self.old.floors manager floor.now }) }
        ensures err { OnErr result (self.new ≡ self.old) }
    {
        let floor = floor.copy()?;
        self.floors.learn(manager, floor);
        Ok(())
    }

    /// Its own manager is asked for the low-water mark.
    pub fn ask_floor(&self, seen: Descriptor) -> Asked
        ensures { result ≡ asked self.now.layout (AskManager (home_of self.now.layout self.now.number) (request.Floor seen)) }
    {
        ask_manager(self.layout, self.home(), ManagerRequest::Floor { seen })
    }

    /// What is said of the present statement.
    pub fn said(&self, answer: Answer, answered: bool) -> Result<Said, NoMemory>
        ensures { IfOk result (λ said. said ≡ record { statement = length self.now.answers.items + 1; answer = answer; answered = answered }) }
    {
        let statement = u32::try_from(self.answers.len()).map_err(|_| NoMemory)?;
        let statement = statement.checked_add(1).ok_or(NoMemory)?;
        Ok(Said {
            statement,
            answer,
            answered,
        })
    }

    /// Room for the answer to the present statement, and what is told of it.
    pub fn prepare(&mut self, answer: &Answer) -> Result<Said, NoMemory>
        ensures said { IfOk result (λ said. said ≡ record { statement = length self.old.answers.items + 1; answer = answer.now; answered = true }) }
        ensures room { OnOk result (vec_len self.new.answers < vec_capacity self.new.answers) }
        ensures items { self.new.answers.items ≡ self.old.answers.items }
        ensures rest { self.new ≡ record self.old { answers = self.new.answers } }
    {
        let told = copy_answer(answer)?;
        let said = self.said(told, true)?;
        self.answers.reserve(1)?;
        Ok(said)
    }

    /// Answers the present statement, and gives what is told of it.
    pub fn answer(&mut self, answer: Answer) -> Result<Said, NoMemory>
        ensures said { IfOk result (λ said. said ≡ record { statement = length self.old.answers.items + 1; answer = answer; answered = true }) }
        ensures answers { OnOk result (self.new.answers.items ≡ self.old.answers.items ++ answer ∷ []) }
        ensures kept { OnErr result (self.new.answers.items ≡ self.old.answers.items) }
        ensures rest { self.new ≡ record self.old { answers = self.new.answers } }
    {
        let said = self.prepare(&answer)?;
        self.answers.push_reserved(answer);
        Ok(said)
    }
}

ghost use Rattle.std.specs.Prelude.{◌≡◌, IfOk, OnOk, OnErr};

use crate::memory::NoMemory;
use std::alloc::Global;

/// What a place runs: a state, changed by one request at a time. Reply and next state are functions of the
/// state and the request alone.
pub trait Machine: Send {
    type Request: Send;

    type Reply: Send;

    /// What the machine answers to a request.
    ghost reply: { Self → Self.Request → Self.Reply };

    /// The state after a request.
    ghost next: { Self → Self.Request → Self };

    fn apply(&mut self, request: &Self::Request) -> Result<Self::Reply, NoMemory>
        ensures replied { IfOk result (λ answer. answer ≡ reply self.old request.now) }
        ensures changed { OnOk result (self.new ≡ next self.old request.now) }
        ensures kept { OnErr result (self.new ≡ self.old) };

    /// `apply`, with its reply given twice: one to keep and one to answer with.
    fn apply_twice(
        &mut self,
        request: &Self::Request,
    ) -> Result<(Self::Reply, Self::Reply), NoMemory>
        ensures replied { IfOk result (λ answers. (answers.0 ≡ reply self.old request.now) × (answers.1 ≡ reply self.old request.now)) }
        ensures changed { OnOk result (self.new ≡ next self.old request.now) }
        ensures kept { OnErr result (self.new ≡ self.old) };

    fn copy_request(alloc: Global, request: &Self::Request) -> Result<Self::Request, NoMemory>
        ensures { IfOk result (λ copy. copy ≡ request.now) };
}

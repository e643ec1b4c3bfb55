//! Which records a statement reads, that these suffice for its answer, and its plan.
#![tactic(auto)]

mod access;
mod copy;
mod laws;
mod plan;
mod planned;
mod range;
mod tested;

pub use access::{access_of, accesses_of};
pub use copy::copy_bound;
pub use laws::accesses_suffice;
pub use plan::{Accesses, Plan, finish, make_plan};

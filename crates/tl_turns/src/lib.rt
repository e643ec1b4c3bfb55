//! Runs a script: whose turn it is, request by request.
#![tactic(auto)]

mod clock;
mod run;

pub use run::run_script;

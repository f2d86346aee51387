// Lists of calls: each line's call is made, and its answer put (docs/CALLS.md).
#![tactic(auto)]

mod second;
pub mod session;
mod state;

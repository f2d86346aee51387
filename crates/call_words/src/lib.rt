// The words of a line of a call list: which call they name, and what they ask for (docs/CALLS.md).
#![tactic(auto)]

pub mod asked;
pub mod names;
pub mod shapes;

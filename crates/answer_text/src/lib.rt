// What is written for a call, as text: its answer, and what `show` and `words` list (docs/CALLS.md).
#![tactic(auto)]

pub mod answers;
mod chains;
mod header;
pub mod lists;
mod slots;
pub mod text;

// A line of a call list, byte by byte: how its bytes form words (docs/CALLS.md).
#![tactic(auto)]

pub mod line;

// Chains of four-word records in a lent slice: reading a record, taking the head, inserting in order, appending, looking through.
#![tactic(auto)]

pub mod append;
pub mod chain;
pub mod insert;
pub mod pop;
pub mod read;
pub mod tag;
pub mod words;

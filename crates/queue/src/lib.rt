// The queues of the lent words: queueing and taking records, and the heads.
#![tactic(auto)]

pub mod header;
pub mod peek;
pub mod records;
pub mod view;

pub use header::Queue;
pub use view::{SideView, View, Words};

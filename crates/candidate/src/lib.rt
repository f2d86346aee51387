// What a round of a choice takes up: the candidate, and the sums that number 10 looks at.
#![tactic(auto)]

use event::{AggregateDelay, ScheduledAction};
use moment::{Length, Moment};
use queue::header::Slot;
use queue::peek::Head;
use queue_peek::blocks::BlockEnd;

pub mod first;
pub mod slots;
pub mod sums;

// A timer that is due: its slot, and when.
#[derive(Clone, Copy)]
pub struct Due {
    pub slot: Slot,
    pub moment: Moment,
}

// An action that is due: its slot, and what it is.
#[derive(Clone, Copy)]
pub struct Planned {
    pub slot: Slot,
    pub action: ScheduledAction,
}

// What a round takes up.
#[derive(Clone, Copy)]
pub enum Candidate {
    Aggregate(AggregateDelay),
    // A block's end, with what the test at it finds.
    Block(BlockEnd, Option<Length>),
    Event(Head),
    Timer(Due),
    Action(Planned),
}

// A round takes an aggregate, or an event.
ghost use Rattle.rules.specs.State.{in_record};
ghost use Rattle.rules.specs.ChoiceRound.{take_aggregate};
ghost use Rattle.event.specs.HandedIn.{aggregate_in};
ghost use Rattle.layout.specs.Layout.{state_of};
ghost use Rattle.queue.specs.Changes.{head_in};
ghost use Rattle.round.specs.Changes.{Becomes};
ghost use Rattle.round.specs.Cases.{AggregateDue, EventDue, EventTaken};

use crate::stores;
use event::{AggregateDelay, SimEvent};
use moment::Moment;
use queue::peek::Head;
use queue::{header, records};

// The first aggregate: its length goes to its side's sum.
pub fn take_aggregate(block: &mut [u64], a: AggregateDelay)
    requires { AggregateDue block.old a }
    ensures { Becomes block.old block.new (take_aggregate (state_of block.old) (in_record (head_in block.old 11) (aggregate_in a))) }
{
    stores::raise_sum(block, a.client, a.length);
    records::release(block, header::AGGREGATES);
}

// A head of the queues, at its moment or at the time, whichever is later.
pub fn take_event(block: &mut [u64], time: Moment, h: Head) -> SimEvent
    requires { EventDue block.old h }
    ensures { EventTaken block.old block.new time.0 h result }
{
    let e = h.event;
    records::release(block, h.queue.chain(e.client));
    SimEvent {
        moment: h.moment.max(time),
        ..e
    }
}

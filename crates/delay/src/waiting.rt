// The packets that wait, in the two queues of `TunnelSent` of a side, looked through for what is within reach of a moment.
ghost use Rattle.std.specs.Prelude.{◌≡◌};
ghost use Rattle.rules.specs.Aggregates.{any_within as any_near, waiting};
ghost use Rattle.queue.specs.Views.{side_at};
ghost use Rattle.delay.specs.Tests.{without};
ghost use Rattle.delay.specs.Waiting.{held_in, behind_in, any_in, tail_over, burst_tail_over};

use moment::Moment;
use queue::{Queue, SideView};
use queue_event::chain::Reach;

// Whether an event of a side's queue is within reach.
fn any_in(side: &SideView, of: Queue, reach: Reach) -> bool
    ensures { result ≡ any_in reach.margin.0 reach.from.0 (held_in (side_at side.now) of) }
{
    let k = of.chain(side.client);
    side.view.chain(k).any_within(reach)
}

// The same of those behind the head of the queue.
#[tactic(auto, using(crate::proofs::Packets::any_next))]
fn any_behind(side: &SideView, of: Queue, reach: Reach) -> bool
    ensures { result ≡ any_in reach.margin.0 reach.from.0 (behind_in (side_at side.now) of) }
{
    let k = of.chain(side.client);
    let mut behind = side.view.chain(k);
    let Some(_) = behind.next() else {
        return false;
    };
    behind.any_within(reach)
}

// Whether a waiting packet of the side is within reach.
pub fn adjacent(side: &SideView, reach: Reach) -> bool
    ensures { result ≡ any_near reach.margin.0 reach.from.0 (waiting (side_at side.now)) }
{
    any_in(side, Queue::Blocking, reach) || any_in(side, Queue::Bypassable, reach)
}

// The same with the head of a queue left out; no packet waits in base or internal.
pub fn beside(side: &SideView, of: Queue, reach: Reach) -> bool
    ensures { result ≡ any_near reach.margin.0 reach.from.0 (waiting (without (side_at side.now) of)) }
{
    let other = match of {
        Queue::Blocking => Queue::Bypassable,
        Queue::Bypassable => Queue::Blocking,
        Queue::Base | Queue::Internal => return adjacent(side, reach),
    };
    any_behind(side, of, reach) || any_in(side, other, reach)
}

// The latest moment of a side's queue within reach, at least `best`.
fn latest_in(side: &SideView, of: Queue, reach: Reach, best: Moment) -> Moment
    ensures { result.0 ≡ tail_over reach.margin.0 reach.from.0 best.0 (held_in (side_at side.now) of) }
{
    let k = of.chain(side.client);
    side.view.chain(k).latest(reach, best)
}

// The tail of the burst that waits since the moment of the reach; it takes three packets to look for it.
pub fn burst_tail(side: &SideView, reach: Reach) -> Moment
    ensures { result.0 ≡ burst_tail_over reach.margin.0 (side_at side.now) reach.from.0 }
{
    let words = side.view.words;
    let blocking = words.entry(Queue::Blocking.chain(side.client)).count;
    let bypassable = words.entry(Queue::Bypassable.chain(side.client)).count;
    // saturating, since a view says nothing of how many records it has
    let packets = blocking.saturating_add(bypassable);
    if packets < 3 {
        return reach.from;
    }
    let tail = latest_in(side, Queue::Blocking, reach, reach.from);
    latest_in(side, Queue::Bypassable, reach, tail)
}

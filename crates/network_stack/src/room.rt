// Number 9: whether used and reserved records would exceed R after a step.
ghost use Rattle.std.specs.Prelude.{◌≡◌, ◌≤◌};
ghost use Rattle.rules.specs.State.{reserved as reserved_of};
ghost use Rattle.layout.specs.Accepted.{Accepted};
ghost use Rattle.queue.specs.Views.{state_in};
ghost use Rattle.network_stack.specs.Steps.{plan_gives_back, no_room};

use crate::plan::Plan;
use network::{aggregate, padding};
use queue::{View, header};

// The records kept in reserve.
fn reserved(view: &View) -> u64
    ensures { (result ≡ reserved_of (state_in view.now)) × (result ≤ 166) }
{
    accept::header::reserved(view.words.header)
}

// What the plan takes is held against what is free, what it gives back, and what is in reserve. It takes the block, since the sums fit in a word by
// the bound of the records, which is a clause of `Accepted` and no promise of a `View`.
pub fn no_room(block: &[u64], p: Plan) -> bool
    requires accepted { Accepted block.now }
    requires given_back_small { plan_gives_back p ≤ 65535 }
    ensures { result ≡ no_room block.now p }
{
    let view = View::of(block);
    let reserve = reserved(&view);
    let free = view.words.entry(header::FREE).count;
    match p {
        Plan::Nothing => false,
        Plan::Queue(_) => free < reserve + 1,
        Plan::Pad(q) => free < reserve + padding::records_for(q),
        Plan::Send(t) => free + t.stale < reserve + 2 + aggregate::records_for(t.tested.by),
    }
}

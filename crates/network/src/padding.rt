// What a step of `PaddingSent` is to do: a packet of its own, or in its place one that waits. specs/Plans has the same of the rules'
// step_padding, proofs/PaddingLaws that the step is this and no more.
ghost use Rattle.std.specs.Prelude.{◌≡◌};
ghost use Rattle.rules.specs.ChoiceRound.{fits};
ghost use Rattle.queue.specs.Views.{state_in, side_at};
ghost use Rattle.delay.specs.Tests.{Packets};
ghost use Rattle.network.specs.Plans.{padded_of, padding_of, padding_plan, padding_sums, padding_records, PaddingAs, TakenAs};

use crate::{Lag, aggregate};
use delay::Tested;
use event::SimEvent;
use moment::Moment;
use queue::peek::Head;
use queue::{SideView, View};

// A packet that is taken over, and what the test for an aggregate found.
#[derive(Clone, Copy)]
pub struct Replaced {
    pub head: Head,
    pub tested: Tested,
}

// What the step is to do.
#[derive(Clone, Copy)]
pub enum Padding {
    Own,
    Dropped,
    Replaces(Replaced),
}

// The packet that waits is taken over.
fn replacement(side: &SideView, h: Head, time: Moment) -> Replaced
    requires { Packets h.queue }
    ensures { TakenAs result (side_at side.now) time.0 h }
{
    let tested = delay::agg_delay_on_padding_bypass_replace(
        side,
        h.queue,
        time,
        h.event.moment,
        side.sum(),
        delay::usual(),
    );
    Replaced { head: h, tested }
}

// What the step is to do. No block is needed.
pub fn plan(view: &View, e: SimEvent, time: Moment) -> Padding
    ensures { PaddingAs result (padding_plan (state_in view.now) time.0 (padded_of e)) }
{
    if !e.replace {
        return Padding::Own;
    }
    let bypassable = view.words.is_bypassable(e.client);
    let side = view.side(e.client);
    let Some(h) = side.peek_blocking(bypassable) else {
        return Padding::Own;
    };
    if h.event.padding {
        return Padding::Own;
    }
    if !e.bypass {
        return Padding::Dropped;
    }
    Padding::Replaces(replacement(&side, h, time))
}

// How many records more are in use after it.
pub fn records_for(p: Padding) -> u64
    ensures { result ≡ padding_records (padding_of p) }
{
    match p {
        Padding::Own => 1,
        Padding::Dropped => 0,
        Padding::Replaces(r) => aggregate::records_for(r.tested.by),
    }
}

// Whether the sums that it forms are within the limit.
pub fn fit(p: Padding, lag: Lag) -> bool
    ensures { result ≡ fits (padding_sums lag.delay.length.0 lag.time.at.0 (padding_of p)) }
{
    match p {
        Padding::Own | Padding::Dropped => true,
        Padding::Replaces(r) => aggregate::tested_fits(lag, r.head.event.client, r.tested),
    }
}

// Which of the five a round takes up: the first that fits.
ghost use Rattle.std.specs.Prelude.{◌≡◌, ℕ, List, false as no};
ghost use mathlib.Core.List.{head?};
ghost use Rattle.std.proofs.Math.Option.{Option};
ghost use Rattle.rules.specs.ChoiceHeads.{Head as RulesHead, waiting_head};
ghost use Rattle.rules.specs.ChoiceDelays.{delays as delays_at, next_block};
ghost use Rattle.rules.specs.ChoiceDelays.{offered as offered_at};
ghost use Rattle.rules.specs.ChoiceRound.{candidate as candidate_at, aggregate_first, block_first, event_first, or_none, an_aggregate, a_block, an_event, due_timer, due_action, held_up_length};
ghost use Rattle.queue.specs.Heads.{PeekedBoth, PeekedBothIn};
ghost use Rattle.queue.specs.Views.{state_in, side_at};
ghost use Rattle.queue_peek.specs.Decoded.{delay_of, delays_of};
ghost use Rattle.delay.specs.Tests.{delayed_of};
ghost use Rattle.candidate.specs.Promises.{Picked, PickedIn, TakenUpIn};
ghost use Rattle.candidate.specs.Promises.{Ahead, later_fitting};

use crate::{Candidate, slots};
use moment::{Length, Moment, Time};
use queue::peek::Head;
use queue::{SideView, View, header};
use queue_peek::five::Delays;
use queue_peek::slots::{Actions, Timers};
use queue_peek::{Slotted, not_later};

// An aggregate goes before what is as early.
fn aggregate_first(d: Delays) -> bool
    ensures { result ≡ aggregate_first (delays_of d) }
{
    not_later(d.n, d.s) && not_later(d.n, d.i) && not_later(d.n, d.b) && not_later(d.n, d.q)
}

// Then a block's end.
fn block_first(d: Delays) -> bool
    ensures { result ≡ block_first (delays_of d) }
{
    not_later(d.b, d.s) && not_later(d.b, d.i) && not_later(d.b, d.q)
}

// Then a queued event.
fn event_first(d: Delays) -> bool
    ensures { result ≡ event_first (delays_of d) }
{
    not_later(d.q, d.s) && not_later(d.q, d.i)
}

// The first aggregate.
fn aggregate_candidate(view: &View) -> Option<Candidate>
    ensures { PickedIn view.now result (or_none an_aggregate (head? (state_in view.now).aggregates)) }
{
    view.head(header::AGGREGATES)
        .map(|first| Candidate::Aggregate(first.aggregate()))
}

// What the test at a block's end finds.
fn held_up(side: &SideView, end: Moment) -> Option<Length>
    ensures { delayed_of result ≡ held_up_length (side_at side.now) end.0 (waiting_head no (side_at side.now)) }
{
    let h = side.peek_blocking(false).filter(|h| h.moment < end)?;
    delay::agg_delay_on_blocking_expire(side, end, h.moment, side.sum(), delay::usual())
}

// The next block to end. What waits behind it is looked through here, once for its sums and its aggregates.
fn block_candidate(view: &View, time: Moment) -> Option<Candidate>
    ensures { TakenUpIn view.now time.0 result (or_none a_block (next_block (state_in view.now))) }
{
    let k = queue_peek::next_block(&view.words)?;
    let end = k.end_moment(time);
    let by = held_up(&view.side(k.client), end);
    Some(Candidate::Block(k, by))
}

// What the queues offer: the head that was found with its delay.
fn event_candidate(found: Option<Head>) -> Option<Candidate>
    ensures { (h rs : List ℕ) (o : Option RulesHead) → PeekedBoth h rs found o → Picked h rs result (or_none an_event o) }
{
    found.map(Candidate::Event)
}

// The timer that is due after the delay. It has two lines in common with the action's: one function for both would need a definition of its own, of a
// slot that is due after a delay, and is no shorter.
fn timer_candidate(view: &View, i: Option<Length>, time: Moment) -> Option<Candidate>
    requires { Ahead time.0 (delay_of i) }
    ensures { PickedIn view.now result (due_timer (state_in view.now) time.0 (delay_of i)) }
{
    let l = i?;
    let d = slots::due::<Timers>(&Slotted::of(view), time.plus(l))?;
    Some(Candidate::Timer(d))
}

// The action that is due after the delay.
fn action_candidate(view: &View, s: Option<Length>, time: Moment) -> Option<Candidate>
    requires { Ahead time.0 (delay_of s) }
    ensures { PickedIn view.now result (due_action (state_in view.now) time.0 (delay_of s)) }
{
    let l = s?;
    let d = slots::due::<Actions>(&Slotted::of(view), time.plus(l))?;
    slots::planned(&view.words, d)
}

// The last three of the five.
fn later_candidate(view: &View, d: Delays, time: Time) -> Option<Candidate>
    requires delays_here { delays_of d ≡ delays_at (state_in view.now) time.at.0 }
    requires head_here { PeekedBothIn view.now d.found (offered_at (state_in view.now) time.at.0) }
    ensures { PickedIn view.now result (later_fitting (state_in view.now) time.at.0 (delays_of d)) }
{
    if event_first(d) {
        return event_candidate(d.found);
    }
    if not_later(d.i, d.s) {
        return timer_candidate(view, d.i, time.at);
    }
    action_candidate(view, d.s, time.at)
}

// What a round takes up.
pub fn candidate(view: &View, time: Time) -> Option<Candidate>
    ensures { TakenUpIn view.now time.at.0 result (candidate_at (state_in view.now) time.at.0) }
{
    let d = queue_peek::delays(view, time);
    if aggregate_first(d) {
        return aggregate_candidate(view);
    }
    if block_first(d) {
        return block_candidate(view, time.at);
    }
    later_candidate(view, d, time)
}

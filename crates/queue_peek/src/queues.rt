// What the queues offer a round: `peek_queue` and `peek_queue_earliest_side`.
ghost use Rattle.std.specs.Prelude.{◌≡◌, ◌≤◌};
ghost use Rattle.rules.specs.ChoiceHeads.{head_delay, held_back, waiting_first, earliest_of_side, earliest_blocked, peek_queue};
ghost use Rattle.queue.specs.Heads.{head_from, found_of, PeekedIn, PeekedBothIn};
ghost use Rattle.queue.specs.Views.{state_in, side_in, side_at};
ghost use Rattle.event.specs.Values.{event_value};
ghost use Rattle.queue_peek.specs.Decoded.{delay_of};
ghost use Rattle.queue_peek.specs.Promises.{Lifted};

use crate::order;
use event::{Kind, SimEvent};
use moment::{Length, Moment, Time};
use queue::peek::{Head, Order};
use queue::{Queue, SideView, View, peek};

// A head's delay from the time.
#[tactic(auto, unfolding(crate::specs::Decoded::delay_of, queue::specs::Heads::found_of, queue::specs::Heads::head_from))]
pub fn head_delay(found: Option<Head>, time: Moment) -> Option<Length>
    ensures { delay_of result ≡ head_delay time.0 (found_of found) }
{
    found.map(|h| h.moment.since(time))
}

// Whether a packet is held back by its side's block.
fn held_back(view: &View, event: SimEvent) -> bool
    requires { event.kind.0 ≤ 9 }
    ensures { result ≡ held_back (side_in view.now event.client) (event_value event) }
{
    if event.kind.0 != Kind::TUNNEL_SENT {
        return false;
    }
    if view.words.block_end(event.client).is_none() {
        return false;
    }
    !event.bypass || !view.words.is_bypassable(event.client)
}

// A waiting head goes before a passing one if it is earlier, or level where the passing one is not of base.
struct WaitingFirst;

impl Order for WaitingFirst {
    type Of = Head;

    ghost before = { λ w p. waiting_first (head_from w) (head_from p) };

    fn earlier(w: Head, p: Head) -> bool {
        match p.queue {
            Queue::Base => w.moment < p.moment,
            _ => w.moment <= p.moment,
        }
    }
}

// A waiting packet goes when the block ends, at the earliest.
// By `?` and not by `map`: `search` did not prove the update within a closure.
fn not_before(waiting: Option<Head>, end: Moment) -> Option<Head>
    ensures { Lifted end.0 waiting result }
{
    let w = waiting?;
    Some(Head {
        moment: w.moment.max(end),
        ..w
    })
}

// The side value of `peek_queue_earliest_side`.
fn earliest_of_side(side: &SideView, time: Time) -> Option<Head>
    ensures { PeekedIn side.now.view side.now.client result (earliest_of_side time.at.0 (side_at side.now)) }
{
    let words = side.view.words;
    let flag = words.is_bypassable(side.client);
    let passing = side.peek_non_blocking(flag);
    let waiting = side.peek_blocking(flag);
    let end = words.block_end(side.client).unwrap_or(time.at);
    peek::first_of::<WaitingFirst>(passing, not_before(waiting, end))
}

// `peek_queue_earliest_side`: the smaller side value, the client's on a tie.
fn peek_queue_earliest_side(view: &View, time: Time) -> Option<Head>
    ensures { PeekedBothIn view.now result (earliest_blocked (state_in view.now) time.at.0) }
{
    let c = earliest_of_side(&view.side(true), time);
    let s = earliest_of_side(&view.side(false), time);
    if order::not_later(head_delay(c, time.at), head_delay(s, time.at)) {
        c
    } else {
        s
    }
}

// `peek_queue`: what the queues offer, and nothing that is later than the other four delays.
pub fn offered(view: &View, time: Time, least: Option<Length>) -> Option<Head>
    ensures { PeekedBothIn view.now result (peek_queue (state_in view.now) time.at.0 (delay_of least)) }
{
    let found = peek::peek(view, time.at);
    let h = found.filter(|h| order::not_later(Some(h.moment.since(time.at)), least))?;
    if held_back(view, h.event) {
        return peek_queue_earliest_side(view, time);
    }
    Some(h)
}

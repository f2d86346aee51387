// The five delays of a round as one value, filled one by one, and the head that was found for the fifth.
ghost use Rattle.std.specs.Prelude.{◌≡◌, ℕ, List, None};
ghost use Rattle.rules.specs.ChoiceHeads.{head_delay, peek_queue};
ghost use Rattle.rules.specs.ChoiceDelays.{action_delay, timer_delay, block_delay, aggregate_delay};
ghost use Rattle.layout.specs.Layout.{state_from};
ghost use Rattle.queue.specs.Heads.{PeekedBothIn};
ghost use Rattle.queue.specs.Views.{state_in};
ghost use Rattle.queue_peek.specs.Decoded.{delay_of, delays_of, no_delays, with_s, with_i, with_b, with_n, with_q, least_of};

use crate::slots::{Actions, Slotted, Timers};
use crate::{blocks, order, queues, slots};
use moment::{Length, Moment, Time};
use queue::peek::Head;
use queue::{View, Words, header};

// Of an action, of a timer, of a block's end, of the first aggregate, and of the queues' head, which stands beside its delay.
// Filled by methods that take `mut self`: document 01's form.
#[derive(Clone, Copy)]
pub struct Delays {
    pub s: Option<Length>,
    pub i: Option<Length>,
    pub b: Option<Length>,
    pub n: Option<Length>,
    pub q: Option<Length>,
    pub found: Option<Head>,
}

impl Delays {
    // None reckoned yet.
    pub fn none() -> Self
        ensures { (delays_of result ≡ no_delays) × (result.found ≡ None) }
    {
        Self {
            s: None,
            i: None,
            b: None,
            n: None,
            q: None,
            found: None,
        }
    }

    // s: the least delay of an action at or after the time.
    pub fn peek_scheduled_action(mut self, slotted: &Slotted, time: Moment) -> Self
        ensures { ((rs : List ℕ) → delays_of result ≡ with_s (delays_of self) (action_delay (state_from slotted.now.words.header.now rs) time.0)) × (result.found ≡ self.found) }
    {
        self.s = slots::least_of_both::<Actions>(slotted, time);
        self
    }

    // i: the least delay of a timer at or after the time.
    pub fn peek_scheduled_internal_timer(mut self, slotted: &Slotted, time: Moment) -> Self
        ensures { ((rs : List ℕ) → delays_of result ≡ with_i (delays_of self) (timer_delay (state_from slotted.now.words.header.now rs) time.0)) × (result.found ≡ self.found) }
    {
        self.i = slots::least_of_both::<Timers>(slotted, time);
        self
    }

    // b: the earlier block end since the time.
    #[tactic(auto, using(crate::proofs::FiveLaws::b_absent, crate::proofs::FiveLaws::b_filled))]
    pub fn peek_blocked_exp(mut self, words: &Words, time: Moment) -> Self
        ensures { ((rs : List ℕ) → delays_of result ≡ with_b (delays_of self) (block_delay (state_from words.now.header.now rs) time.0)) × (result.found ≡ self.found) }
    {
        self.b = blocks::next_block(words).map(|k| k.end.since(time));
        self
    }

    // n: the first aggregate since the time.
    #[tactic(auto, using(crate::proofs::FiveLaws::n_absent, crate::proofs::FiveLaws::n_filled))]
    pub fn peek_aggregate_delay(mut self, view: &View, time: Moment) -> Self
        ensures { (delays_of result ≡ with_n (delays_of self) (aggregate_delay (state_in view.now) time.0)) × (result.found ≡ self.found) }
    {
        self.n = view
            .head(header::AGGREGATES)
            .map(|r| r.moment().since(time));
        self
    }

    // The least of the four. None is later than any delay here, and earlier in the order of Option.
    // By `earlier`, which the rules name, and not as the least of a list without its Nones: that needs a law of `min` for each of the four.
    pub fn least(self) -> Option<Length>
        ensures { delay_of result ≡ least_of (delays_of self) }
    {
        order::earlier(
            order::earlier(order::earlier(self.s, self.i), self.b),
            self.n,
        )
    }

    // q: the head of the queues, which is kept for the candidate.
    pub fn peek_queue(mut self, view: &View, time: Time) -> Self
        ensures { (delays_of result ≡ with_q (delays_of self) (head_delay time.at.0 (peek_queue (state_in view.now) time.at.0 (least_of (delays_of self))))) × PeekedBothIn view.now result.found (peek_queue (state_in view.now) time.at.0 (least_of (delays_of self))) }
    {
        let found = queues::offered(view, time, self.least());
        self.q = queues::head_delay(found, time.at);
        self.found = found;
        self
    }
}

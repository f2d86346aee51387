// The five delays of a round, as queue_peek.rs reckons them.
#![tactic(auto)]

ghost use Rattle.std.specs.Prelude.{◌≡◌};
ghost use Rattle.rules.specs.ChoiceDelays.{delays as delays_at};
ghost use Rattle.rules.specs.ChoiceDelays.{offered as offered_at};
ghost use Rattle.queue.specs.Heads.{PeekedBothIn};
ghost use Rattle.queue.specs.Views.{state_in};
ghost use Rattle.queue_peek.specs.Decoded.{delays_of};

use moment::Time;
use queue::View;

pub mod blocks;
pub mod five;
pub mod order;
mod queues;
pub mod slots;

pub use blocks::{BlockEnd, next_block};
pub use five::Delays;
pub use order::not_later;
pub use slots::Slotted;

// All five, and the head that the queues offer.
pub fn delays(view: &View, time: Time) -> Delays
    ensures { (delays_of result ≡ delays_at (state_in view.now) time.at.0) × PeekedBothIn view.now result.found (offered_at (state_in view.now) time.at.0) }
{
    let slotted = Slotted::of(view);
    Delays::none()
        .peek_scheduled_action(&slotted, time.at)
        .peek_scheduled_internal_timer(&slotted, time.at)
        .peek_blocked_exp(&view.words, time.at)
        .peek_aggregate_delay(view, time.at)
        .peek_queue(view, time)
}

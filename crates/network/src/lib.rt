// The network of network.rs, up to a step: `push_aggregate_delay`, the window of stamps, and what a step is to do.
#![tactic(auto)]

ghost use Rattle.std.specs.Prelude.{◌≡◌};
ghost use Rattle.queue.specs.Views.{state_in};

use moment::{Span, Time};
use queue::View;

pub mod aggregate;
pub mod padding;
pub mod tunnel;
pub mod window;

// The network delay, and the time from which it counts. No side is among them: it is the event's, or that of the packet which padding takes over.
#[derive(Clone, Copy)]
pub struct Lag {
    pub delay: Span,
    pub time: Time,
}

// The network delay.
pub fn network_delay(view: &View) -> Span
    ensures { result.length.0 ≡ (state_in view.now).settings.network_delay }
{
    view.words.network_delay()
}

// What a step of `TunnelSent` is to do: a stamp, the delay of a full window with its test for an aggregate, and `TunnelRecv` at the
// other side. specs/Plans has the same of the rules' step_tunnel, proofs/TunnelLaws that the step is this and no more.
ghost use Rattle.std.specs.Prelude.{◌≡◌, false, ◌≤◌, length};
ghost use Rattle.rules.specs.Basics.{other, TunnelRecv};
ghost use Rattle.rules.specs.NetworkStep.{packet, reported as reported_at};
ghost use Rattle.rules.specs.ChoiceRound.{fits};
ghost use Rattle.event.specs.HandedIn.{side_of};
ghost use Rattle.event.specs.Values.{event_value};
ghost use Rattle.queue.specs.Views.{state_in, side_at};
ghost use Rattle.delay.specs.Tests.{TestedAs};
ghost use Rattle.network.specs.Plans.{sent_of, Sendable, LinkAs, tested_by, tested_sums, tunnel_of, tunnel_plan, tunnel_sums};

use crate::{Lag, aggregate, window};
use delay::Tested;
use event::{Kind, SimEvent};
use moment::{Length, Moment, Span, Sum};
use queue::{SideView, View, header};

// What the step is to do.
#[derive(Clone, Copy)]
pub struct Tunnel {
    pub stale: u64,
    pub tested: Tested,
    pub received: SimEvent,
}

// What the header says for it. The aggregate test uses the client's sum on both sides; the reporting delay is the recipient's.
#[derive(Clone, Copy)]
pub struct Link {
    pub delay: Span,
    pub window: Span,
    pub rate: Option<u64>,
    pub sum: Sum,
    pub reporting: Span,
}

fn link_of(side: &SideView) -> Link
    ensures { LinkAs result (state_in side.now.view) (side_of side.now.client) }
{
    let words = side.view.words;
    Link {
        delay: crate::network_delay(&side.view),
        window: words.window(),
        rate: window::rate_of(words.header[1], words.header[2]),
        sum: side.view.side(true).sum(),
        reporting: Span {
            length: words.reporting_delay(!side.client),
        },
    }
}

// A packet of the moment `from` that is delayed is tested for an aggregate.
fn test(side: &SideView, from: Moment, extra: Length, sum: Sum) -> Tested
    ensures { TestedAs result
        (tested_by (side_at side.now) sum.length.0 from.0 extra.0)
        (tested_sums (side_at side.now) sum.length.0 from.0 extra.0) }
{
    if extra.0 == 0 {
        return Tested {
            by: None,
            base: None,
        };
    }
    let asked = delay::should_delayed_packet_prop_agg_delay(side, from, sum, delay::usual());
    Tested {
        by: asked.yes.then_some(extra),
        base: asked.base,
    }
}

// When the packet is reported at the recipient.
// `Sendable` stays a clause: as a struct of event and time it was six lines more and two fewer.
fn reported(e: SimEvent, time: Moment, network: Length, reporting: Span) -> Moment
    requires sendable { Sendable e time.0 }
    requires network_small { network.0 ≤ 65_537_000_000_000_000 }
    ensures { result.0 ≡ reported_at (sent_of e) time.0 network.0 reporting.length.0 }
{
    if e.padding {
        return e.moment.plus(e.delay).plus(network).plus(reporting.length);
    }
    e.moment
        .less(e.delay)
        .plus(network)
        .plus(reporting.length)
        .max(time)
}

// The packet at the recipient.
fn arrival(e: SimEvent, time: Moment, network: Length, reporting: Span) -> SimEvent
    requires sendable { Sendable e time.0 }
    requires network_small { network.0 ≤ 65_537_000_000_000_000 }
    ensures { event_value result ≡ packet TunnelRecv (reported_at (sent_of e) time.0 network.0 reporting.length.0) reporting.length.0 (other (side_of e.client)) e.padding false false }
{
    let moment = reported(e, time, network, reporting);
    SimEvent {
        kind: Kind(Kind::TUNNEL_RECV),
        moment,
        delay: reporting.length,
        client: !e.client,
        padding: e.padding,
        bypass: false,
        replace: false,
        machine: 0,
    }
}

// What the step is to do.
pub fn plan(view: &View, e: SimEvent, time: Moment) -> Tunnel
    requires few { length view.now.records.now ≤ 262140 }
    requires sendable { Sendable e time.0 }
    ensures { tunnel_of result ≡ tunnel_plan (state_in view.now) time.0 (sent_of e) }
{
    let side = view.side(e.client);
    let link = link_of(&side);
    let filled = window::fill(&side, time, link.window, link.rate);
    let tested = test(&side, e.moment, filled.extra, link.sum);
    let received = arrival(
        e,
        time,
        filled.extra.plus(link.delay.length),
        link.reporting,
    );
    Tunnel {
        stale: filled.stale,
        tested,
        received,
    }
}

// Whether the sums that it forms are within the limit.
pub fn fit(t: Tunnel, lag: Lag, client: bool) -> bool
    ensures { result ≡ fits (tunnel_sums lag.delay.length.0 (side_of client) lag.time.at.0 (tunnel_of t)) }
{
    aggregate::tested_fits(lag, client, t.tested) && t.received.moment.fits()
}

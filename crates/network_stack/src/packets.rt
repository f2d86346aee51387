// The packets that a step queues: of kinds without a machine.
ghost use Rattle.std.specs.Prelude.{◌≡◌};
ghost use Rattle.rules.specs.Basics.{TunnelSent};
ghost use Rattle.rules.specs.NetworkStep.{packet};
ghost use Rattle.event.specs.HandedIn.{side_of};
ghost use Rattle.network_stack.specs.Packets.{Packet, receipt_kind, receipt_no};

use event::{Kind, SimEvent};

// A `TunnelSent` with the moment, the delay and the side of an event.
pub fn tunnel_sent(e: SimEvent, padding: bool, bypass: bool, replace: bool) -> SimEvent
    ensures { Packet result (packet TunnelSent e.moment.0 e.delay.0 (side_of e.client) padding bypass replace) }
{
    SimEvent {
        kind: Kind(Kind::TUNNEL_SENT),
        padding,
        bypass,
        replace,
        machine: 0,
        ..e
    }
}

// The kind of what comes out of the tunnel.
fn receipt_kind(padding: bool) -> u64
    ensures { result ≡ receipt_no padding }
{
    if padding {
        Kind::PADDING_RECV
    } else {
        Kind::NORMAL_RECV
    }
}

// What a `TunnelRecv` becomes.
pub fn receipt(e: SimEvent) -> SimEvent
    ensures { Packet result (receipt_kind e) }
{
    SimEvent {
        kind: Kind(receipt_kind(e.padding)),
        bypass: false,
        replace: false,
        machine: 0,
        ..e
    }
}

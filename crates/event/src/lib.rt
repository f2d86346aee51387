// Events, actions and pending aggregates as they travel between calls, and their kinds.
// specs/HandedIn says what the rules call each struct. In prose only: which number a constant stands for, and that
// `kind`, `moment`, `delay` and `padding` are `event`, `time`, `integration_delay` and `contains_padding` of the source.
#![tactic(auto)]

ghost use Rattle.std.specs.Prelude.{◌≡◌, leb};
ghost use Rattle.event.specs.HandedIn.{has_machine_no, is_action_no};

pub mod answer;

use moment::{Length, Moment};

// The kind of an event: no enum, since any number may be handed in, and one above the limit is refused by its number.
#[derive(Clone, Copy)]
pub struct Kind(pub u64);

impl Kind {
    // The ranks of `event_to_usize`.
    // They are numbers, which document 01 calls associated constants of Kind: a tag holds one, and a chain is ordered by it.
    pub const TUNNEL_SENT: u64 = 0;

    pub const NORMAL_SENT: u64 = 1;

    pub const PADDING_SENT: u64 = 2;

    pub const TUNNEL_RECV: u64 = 3;

    pub const NORMAL_RECV: u64 = 4;

    pub const PADDING_RECV: u64 = 5;

    pub const BLOCKING_BEGIN: u64 = 6;

    pub const BLOCKING_END: u64 = 7;

    pub const TIMER_BEGIN: u64 = 8;

    pub const TIMER_END: u64 = 9;

    // The place among events of one moment.
    pub fn rank(self) -> u64
        ensures { result ≡ self.0 }
    {
        self.0
    }

    // The last number of a kind.
    pub fn limit() -> u64
        ensures { result ≡ 9 }
    {
        Kind::TIMER_END
    }

    // Whether the number is that of a kind at all.
    pub fn known(self) -> bool
        ensures { result ≡ leb self.0 9 }
    {
        self.0 <= Kind::TIMER_END
    }

    #[tactic(auto, using(crate::proofs::Numbers::machine_is))]
    pub fn has_machine(self) -> bool
        ensures { result ≡ has_machine_no self.0 }
    {
        let n = self.0;
        matches!(
            n,
            Kind::PADDING_SENT | Kind::BLOCKING_BEGIN | Kind::TIMER_BEGIN | Kind::TIMER_END
        )
    }
}

// The kind of an action: any number too, `Cancel` (0) and `UpdateTimer` (3) among them.
#[derive(Clone, Copy)]
pub struct ActionKind(pub u64);

impl ActionKind {
    // Their places in `TriggerAction`.
    pub const SEND_PADDING: u64 = 1;

    pub const BLOCK_OUTGOING: u64 = 2;

    // Whether it is one that a slot may hold.
    #[tactic(auto, using(crate::proofs::Numbers::action_is))]
    pub fn known(self) -> bool
        ensures { result ≡ is_action_no self.0 }
    {
        let n = self.0;
        matches!(n, ActionKind::SEND_PADDING | ActionKind::BLOCK_OUTGOING)
    }
}

// An event of a side: the client's, or else the server's.
#[derive(Clone, Copy)]
pub struct SimEvent {
    pub kind: Kind,
    pub moment: Moment,
    pub delay: Length,
    pub client: bool,
    pub padding: bool,
    pub bypass: bool,
    pub replace: bool,
    pub machine: u64,
}

// What a machine's slot holds. Only `BlockOutgoing` has a duration.
#[derive(Clone, Copy)]
pub struct ScheduledAction {
    pub kind: ActionKind,
    pub moment: Moment,
    pub duration: Length,
    pub bypass: bool,
    pub replace: bool,
}

// A length that is added to a side's sum once its moment has come (`PendingAggregateDelay`).
#[derive(Clone, Copy)]
pub struct AggregateDelay {
    pub moment: Moment,
    pub length: Length,
    pub client: bool,
}

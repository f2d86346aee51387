// What crosses as numbers: an event, an action, a flag, and a call's answer.
ghost use Rattle.std.specs.Prelude.{◌≡◌};
ghost use Rattle.event.specs.HandedIn.{event_in, action_in};
ghost use Rattle.simulator.specs.Numbers.{slot_in};
ghost use Rattle.calls.specs.Told.{is_set, event_for, action_for, slot_for, code_in};

use event::answer::Refusal;
use event::{ActionKind, Kind, ScheduledAction, SimEvent};
use moment::{Length, Moment};
use simulator::slots::Slot;

pub fn is_set(n: u64) -> bool
    ensures { result ≡ is_set n }
{
    n != 0
}

// The number of an answer: 0 for one that is no refusal.
pub fn number<T: Copy>(a: Result<T, Refusal>) -> u64
    ensures { result ≡ code_in a }
{
    match a {
        Ok(_) => 0,
        Err(r) => r.reason.number(),
    }
}

// The event that is handed in, as eight numbers: they are C's parameters and the words of a row.
pub fn event_from(
    kind: u64,
    moment: u64,
    delay: u64,
    side: u64,
    padding: u64,
    bypass: u64,
    replace: u64,
    machine: u64,
) -> SimEvent
    ensures { event_in result ≡ event_for kind moment delay side padding bypass replace machine }
{
    SimEvent {
        kind: Kind(kind),
        moment: Moment(moment),
        delay: Length(delay),
        client: is_set(side),
        padding: is_set(padding),
        bypass: is_set(bypass),
        replace: is_set(replace),
        machine,
    }
}

// The slot that is handed in.
pub fn slot_from(side: u64, machine: u64) -> Slot
    ensures { slot_in result.client result.machine ≡ slot_for side machine }
{
    let client = is_set(side);
    Slot { client, machine }
}

// The action that is handed in.
pub fn action_from(
    kind: u64,
    moment: u64,
    duration: u64,
    bypass: u64,
    replace: u64,
) -> ScheduledAction
    ensures { action_in result ≡ action_for kind moment duration bypass replace }
{
    ScheduledAction {
        kind: ActionKind(kind),
        moment: Moment(moment),
        duration: Length(duration),
        bypass: is_set(bypass),
        replace: is_set(replace),
    }
}

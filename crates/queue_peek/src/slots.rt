// The slots of the machines: the moment that each holds, and the least delay to one.
ghost use Rattle.std.specs.Prelude.{◌≡◌, ℕ, ◌<◌, ◌≤◌, Bool, true, false, List, length};
ghost use Rattle.std.proofs.Math.Option.{Option as RulesOption, none};
ghost use Rattle.rules.specs.Basics.{earlier};
ghost use Rattle.rules.specs.State.{SideState};
ghost use Rattle.rules.specs.ChoiceDelays.{slot_delay, least_delay, action_moments};
ghost use Rattle.layout.specs.Header.{Limited, SlotsOk};
ghost use Rattle.queue.specs.Heads.{side_held};
ghost use Rattle.queue.specs.Views.{moment_no};
ghost use Rattle.queue.specs.Slots.{held_at};
ghost use Rattle.queue.proofs.SlotLaws.{timers_sixteen, timers_beyond, actions_sixteen, actions_beyond};
ghost use Rattle.queue_peek.specs.Decoded.{delay_of};

use crate::order;
use moment::{Length, Moment};
use queue::header::Slot;
use queue::{View, Words, header};

// The words of a state whose header is within its limits and whose slots are in order.
#[derive(Clone, Copy)]
pub struct Slotted<'a> {
    pub words: Words<'a>,
    pub ghost limits: { Limited words.header.now },
    pub ghost slots: { SlotsOk words.header.now },
}

impl<'a> Slotted<'a> {
    // Of an accepted state.
    pub fn of(view: &View<'a>) -> Slotted<'a>
        ensures { result.words ≡ view.now.words }
    {
        Slotted { words: view.words }
    }
}

// The slots of one kind.
pub trait Slots {
    // The moments that a side's slots hold, by machine.
    ghost moments: { SideState → List (RulesOption ℕ) };

    // The moment that a machine's slot holds.
    fn moment(words: &Words, slot: Slot) -> Option<Moment>
        ensures { (rs : List ℕ) → moment_no result ≡ held_at (moments (side_held words.now.header.now rs slot.client)) slot.machine };

    // A side has sixteen, and those above its machines hold nothing where the slots are in order.
    ghost sixteen: { (hs rs : List ℕ) (client : Bool) → length (moments (side_held hs rs client)) ≡ 16 };

    ghost beyond: { (hs rs : List ℕ) (client : Bool) (m : ℕ) → SlotsOk hs → (side_held hs rs client).fixed.machines ≤ m → held_at (moments (side_held hs rs client)) m ≡ none };
}

pub struct Timers;

impl Slots for Timers {
    ghost moments = { λ x. x.timers };

    ghost sixteen = { timers_sixteen };

    ghost beyond = { timers_beyond };

    fn moment(words: &Words, slot: Slot) -> Option<Moment> {
        words.timer(slot)
    }
}

pub struct Actions;

impl Slots for Actions {
    ghost moments = { action_moments };

    ghost sixteen = { actions_sixteen };

    ghost beyond = { actions_beyond };

    #[tactic(auto, using(queue::proofs::SlotLaws::moment_none, queue::proofs::SlotLaws::moment_some))]
    fn moment(words: &Words, slot: Slot) -> Option<Moment> {
        words.action(slot).map(|a| a.moment)
    }
}

// The delay to a moment that a slot holds; one that is past is never taken.
fn slot_delay(moment: Option<Moment>, time: Moment) -> Option<Length>
    ensures { delay_of result ≡ slot_delay time.0 (moment_no moment) }
{
    let m = moment?;
    if m < time { None } else { Some(m.since(time)) }
}

// The least delay of a side's slots: of its machines', since no other slot holds a moment.
fn least_delay<S: Slots>(slotted: &Slotted, client: bool, time: Moment) -> Option<Length>
    ensures { (rs : List ℕ) → delay_of result ≡ least_delay time.0 (S.moments (side_held slotted.now.words.header.now rs client)) }
{
    let machines = slotted.words.of_side(header::MACHINES, client);
    // By a loop: with `filter_map(..).min()` the goal `returns` stayed open, since the closure's promise is not found where it asks `machine < 16`.
    let mut best = None;
    for machine in (0..machines).rev() {
        let slot = Slot { client, machine };
        if let Some(moment) = S::moment(&slotted.words, slot) {
            let delay = slot_delay(Some(moment), time);
            best = order::earlier(delay, best);
        }
    }
    best
}

// The least delay of the slots of both sides.
pub fn least_of_both<S: Slots>(slotted: &Slotted, time: Moment) -> Option<Length>
    ensures { (rs : List ℕ) → delay_of result ≡ earlier (least_delay time.0 (S.moments (side_held slotted.now.words.header.now rs true))) (least_delay time.0 (S.moments (side_held slotted.now.words.header.now rs false))) }
{
    let client = least_delay::<S>(slotted, true, time);
    let server = least_delay::<S>(slotted, false, time);
    order::earlier(client, server)
}

// The slots of both sides: the lowest machine whose slot has a moment, and the action of a slot.
ghost use Rattle.std.specs.Prelude.{◌≡◌, ℕ, List};
ghost use Rattle.std.proofs.Math.Option.{map};
ghost use Rattle.rules.specs.ChoiceRound.{slot_at, action_from};
ghost use Rattle.layout.specs.Layout.{state_from};
ghost use Rattle.queue.specs.Heads.{side_held};
ghost use Rattle.queue.specs.Views.{moment_no};
ghost use Rattle.candidate.specs.Candidates.{machine_slot, due_slot};
ghost use Rattle.candidate.specs.Promises.{has_moment, found_slot, DueIn, Picked};

use crate::{Candidate, Due, Planned};
use moment::Moment;
use queue::header::Slot;
use queue::{Words, header};
use queue_peek::Slotted;
use queue_peek::slots::Slots;

// Whether what a slot holds has the moment.
#[tactic(auto, using(crate::proofs::SlotLaws::has_none, crate::proofs::SlotLaws::has_some))]
fn has_moment(held: Option<Moment>, moment: Moment) -> bool
    ensures { result ≡ has_moment moment.0 (moment_no held) }
{
    held.is_some_and(|m| m == moment)
}

// The slot of the lowest machine of a side that has the moment. No slot above its machines holds one.
// By a loop, in which the bound of the machine is known where the slot is made: a closure for `find` would need clauses of its own.
pub fn machine_at<S: Slots>(slotted: &Slotted, client: bool, moment: Moment) -> Option<Slot>
    ensures { (rs : List ℕ) → found_slot result ≡ map (machine_slot client) (slot_at moment.0 (S.moments (side_held slotted.now.words.header.now rs client))) }
{
    let machines = slotted.words.of_side(header::MACHINES, client);
    for machine in 0..machines {
        let slot = Slot { client, machine };
        if has_moment(S::moment(&slotted.words, slot), moment) {
            return Some(slot);
        }
    }
    None
}

// The slot that is due at the moment: the client's first, then the lowest machine's.
pub fn due<S: Slots>(slotted: &Slotted, moment: Moment) -> Option<Due>
    ensures { (rs : List ℕ) → DueIn S.moments (state_from slotted.now.words.header.now rs) moment.0 result }
{
    // By `if let` and `?`: with `or_else` the closure's promise has no name, and both goals stayed open.
    if let Some(slot) = machine_at::<S>(slotted, true, moment) {
        return Some(Due { slot, moment });
    }
    let slot = machine_at::<S>(slotted, false, moment)?;
    Some(Due { slot, moment })
}

// The action in a slot as what a round takes up; nothing where the slot is empty.
pub fn planned(words: &Words, d: Due) -> Option<Candidate>
    ensures { (rs : List ℕ) → Picked words.now.header.now rs result (action_from (state_from words.now.header.now rs) (due_slot d)) }
{
    words.action(d.slot).map(|action| {
        Candidate::Action(Planned {
            slot: d.slot,
            action,
        })
    })
}

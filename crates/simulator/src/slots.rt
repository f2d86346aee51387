// A machine's action or timer is set or cleared.
ghost use Rattle.std.specs.Prelude.{◌≡◌, ◌+◌, ◌*◌, ◌<◌, ◌≤◌, ℕ, List, length, get_or};
ghost use Rattle.std.proofs.Math.Option.{Option as MathOption, none};
ghost use Rattle.rules.specs.ChoiceRound.{Slot as RulesSlot};
ghost use Rattle.rules.specs.Choice.{done};
ghost use Rattle.rules.specs.Arguments.{Call, set_action, set_timer, clear_action, clear_timer};
ghost use Rattle.event.specs.HandedIn.{action_in};
ghost use Rattle.layout.specs.Accepted.{Accepted};
ghost use Rattle.queue_event.specs.Tag.{bit as bit_of};
ghost use Rattle.layout.specs.Changes.{side_no, put_action};
ghost use Rattle.event.specs.HandedIn.{side_of};
ghost use Rattle.queue.specs.Slots.{slot_no};
ghost use Rattle.simulator.specs.Numbers.{refused_with, slot_in, no_room, kept_no, SlotNumber, CallNumber, Numbered};
ghost use Rattle.event.specs.Answers.{answer_of};
ghost use Rattle.simulator.specs.Outcome.{Outcome};
ghost use Rattle.simulator.specs.Alone.{timer_alone, action_alone};

use crate::admit;
use event::answer::{Answer, Reason};
use event::{ActionKind, ScheduledAction};
use moment::{Length, Moment};
use queue::{View, header, records};

// A machine's place for a timer and an action.
#[derive(Clone, Copy)]
pub struct Slot {
    pub client: bool,
    pub machine: u64,
}

impl Slot {
    // The slot of a machine that its side has, which is one of sixteen.
    #[tactic(auto, using(crate::proofs::SlotOutcomes::slot_below))]
    fn known(self) -> header::Slot
        requires { self.machine < 16 }
        ensures { (slot_no result ≡ 16 * side_no (side_of self.client) + self.machine) × (slot_no result < 32) }
    {
        header::Slot {
            client: self.client,
            machine: self.machine,
        }
    }
}

// A timer, by its moment.
#[derive(Clone, Copy)]
pub struct Timer(pub Moment);

// What a slot holds: a timer or an action.
pub trait Held: Copy {
    // The calls that set it in a slot and clear it there.
    ghost setting: { RulesSlot → Self → Call };

    ghost clearing: { RulesSlot → Call };

    // The rows of setting it from 5 on, in a state that is not ended.
    fn admit(self, view: &View, slot: Slot) -> Result<(), Reason>
        requires { get_or view.now.words.header.now 16 0 ≡ 0 }
        ensures { CallNumber view.now.words.header.now (setting (slot_in slot.client slot.machine) self) (refused_with result) };

    // It goes into the slot, whatever that holds.
    fn put(self, block: &mut [u64], slot: Slot)
        requires { Numbered block.old (setting (slot_in slot.client slot.machine) self) none }
        ensures { Outcome block.old (setting (slot_in slot.client slot.machine) self) done block.new };

    // The slot is emptied; one that is empty stays as it is.
    fn empty(block: &mut [u64], slot: Slot)
        requires { Numbered block.old (clearing (slot_in slot.client slot.machine)) none }
        ensures { Outcome block.old (clearing (slot_in slot.client slot.machine)) done block.new };

    // Clearing has the slot's row alone.
    ghost alone: { (h : List ℕ) (z : RulesSlot) → get_or h 16 0 ≡ 0 → (o : MathOption ℕ) → SlotNumber h z o → CallNumber h (clearing z) o };
}

// ---- the rows

// Row 5 of a slot.
fn check_slot(view: &View, slot: Slot) -> Result<(), Reason>
    ensures { SlotNumber view.now.words.header.now (slot_in slot.client slot.machine) (refused_with result) }
{
    if view.words.of_side(header::MACHINES, slot.client) <= slot.machine {
        return Err(Reason::NoMachine);
    }
    Ok(())
}

// Whether there is no room for what the slot reserves beyond what it reserves now.
fn no_room(view: &View, word: u64, size: u64) -> bool
    requires { size ≤ 4 }
    ensures { result ≡ no_room view.now.words.header.now word size }
{
    word == 0
        && view.words.entry(header::FREE).count < accept::header::reserved(view.words.header) + size
}

// ---- a timer

impl Held for Timer {
    ghost setting = { λ z t. set_timer z t.0.0 };

    ghost clearing = { clear_timer };

    ghost alone = { timer_alone };

    fn admit(self, view: &View, slot: Slot) -> Result<(), Reason> {
        check_slot(view, slot)?;
        if !self.0.fits() {
            return Err(Reason::AboveLimit);
        }
        let j = slot.known().number();
        if no_room(view, view.words.header[header::TIMERS + j], 1) {
            return Err(Reason::NoRoom);
        }
        Ok(())
    }

    fn put(self, block: &mut [u64], slot: Slot) {
        let j = slot.known().number();
        block[header::TIMERS + j] = self.0.stored();
    }

    fn empty(block: &mut [u64], slot: Slot) {
        records::clear_timer(block, slot.known());
    }
}

// ---- an action

// The duration as it is kept: only `BlockOutgoing` has one.
fn kept_duration(a: ScheduledAction) -> Length
    ensures { result.0 ≡ kept_no a.kind.0 a.duration.0 }
{
    if a.kind.0 == ActionKind::BLOCK_OUTGOING {
        return a.duration;
    }
    Length(0)
}

// Kind and flags in one word.
fn action_word(a: ScheduledAction) -> u64
    requires { a.kind.0 ≤ 2 }
    ensures { result ≡ a.kind.0 + 4 * bit_of a.bypass + 8 * bit_of a.replace }
{
    a.kind.0 + 4 * u64::from(a.bypass) + 8 * u64::from(a.replace)
}

// The three words of an action's slot.
fn store_action(block: &mut [u64], j: usize, word: u64, moment: Moment, duration: Length)
    requires wide { 260 ≤ length block.old }
    requires slot { j < 32 }
    ensures { block.new ≡ put_action j word moment.0 duration.0 block.old }
{
    let at = header::ACTIONS + 3 * j;
    block[at] = word;
    block[at + 1] = moment.0;
    block[at + 2] = duration.0;
}

impl Held for ScheduledAction {
    ghost setting = { λ z a. set_action z (action_in a) };

    ghost clearing = { clear_action };

    ghost alone = { action_alone };

    fn admit(self, view: &View, slot: Slot) -> Result<(), Reason> {
        check_slot(view, slot)?;
        if !self.kind.known() {
            return Err(Reason::NoKind);
        }
        if !self.moment.fits() || !kept_duration(self).fits() {
            return Err(Reason::AboveLimit);
        }
        let j = slot.known().number();
        if no_room(view, view.words.header[header::ACTIONS + 3 * j], 4) {
            return Err(Reason::NoRoom);
        }
        Ok(())
    }

    fn put(self, block: &mut [u64], slot: Slot) {
        let j = slot.known().number();
        let word = action_word(self);
        let kept = kept_duration(self);
        store_action(block, j, word, self.moment, kept);
    }

    fn empty(block: &mut [u64], slot: Slot) {
        records::clear_action(block, slot.known());
    }
}

// ---- the calls

fn admit_set<H: Held>(block: &[u64], slot: Slot, held: H) -> Result<(), Reason>
    requires { Accepted block.now }
    ensures { Numbered block.now (H.setting (slot_in slot.client slot.machine) held) (refused_with result) }
{
    let view = admit::going(block)?;
    held.admit(&view, slot)
}

fn admit_clear<H: Held>(block: &[u64], slot: Slot) -> Result<(), Reason>
    requires { Accepted block.now }
    ensures { Numbered block.now (H.clearing (slot_in slot.client slot.machine)) (refused_with result) }
{
    let view = admit::going(block)?;
    check_slot(&view, slot)
}

// A timer or an action is set in accepted words, whatever the slot holds.
pub fn set_on<H: Held>(block: &mut [u64], slot: Slot, held: H) -> Answer
    requires { Accepted block.old }
    ensures { Outcome block.old (H.setting (slot_in slot.client slot.machine) held) (answer_of result) block.new }
{
    admit_set(block, slot, held)?;
    held.put(block, slot);
    Ok(())
}

// A timer or an action is set.
pub fn set<H: Held>(block: &mut [u64], slot: Slot, held: H) -> Answer
    ensures { Outcome block.old (H.setting (slot_in slot.client slot.machine) held) (answer_of result) block.new }
{
    admit::lent(block, &mut [0; 12])?;
    set_on(block, slot, held)
}

// A timer or an action is cleared in accepted words.
pub fn clear_on<H: Held>(block: &mut [u64], slot: Slot) -> Answer
    requires { Accepted block.old }
    ensures { Outcome block.old (H.clearing (slot_in slot.client slot.machine)) (answer_of result) block.new }
{
    admit_clear::<H>(block, slot)?;
    H::empty(block, slot);
    Ok(())
}

// A timer or an action is cleared.
pub fn clear<H: Held>(block: &mut [u64], slot: Slot) -> Answer
    ensures { Outcome block.old (H.clearing (slot_in slot.client slot.machine)) (answer_of result) block.new }
{
    admit::lent(block, &mut [0; 12])?;
    clear_on::<H>(block, slot)
}

// ---- the calls by their names

// A timer is set in accepted words, whatever the slot holds.
pub fn set_timer_on(block: &mut [u64], client: bool, machine: u64, moment: Moment) -> Answer
    requires { Accepted block.old }
    ensures { Outcome block.old (set_timer (slot_in client machine) moment.0) (answer_of result) block.new }
{
    set_on(block, Slot { client, machine }, Timer(moment))
}

// A timer is set.
pub fn set_timer(block: &mut [u64], client: bool, machine: u64, moment: Moment) -> Answer
    ensures { Outcome block.old (set_timer (slot_in client machine) moment.0) (answer_of result) block.new }
{
    set(block, Slot { client, machine }, Timer(moment))
}

// A timer is cleared in accepted words; an empty slot stays as it is.
pub fn clear_timer_on(block: &mut [u64], client: bool, machine: u64) -> Answer
    requires { Accepted block.old }
    ensures { Outcome block.old (clear_timer (slot_in client machine)) (answer_of result) block.new }
{
    clear_on::<Timer>(block, Slot { client, machine })
}

// A timer is cleared.
pub fn clear_timer(block: &mut [u64], client: bool, machine: u64) -> Answer
    ensures { Outcome block.old (clear_timer (slot_in client machine)) (answer_of result) block.new }
{
    clear::<Timer>(block, Slot { client, machine })
}

// An action is set in accepted words, whatever the slot holds.
pub fn set_action_on(block: &mut [u64], client: bool, machine: u64, a: ScheduledAction) -> Answer
    requires { Accepted block.old }
    ensures { Outcome block.old (set_action (slot_in client machine) (action_in a)) (answer_of result) block.new }
{
    set_on(block, Slot { client, machine }, a)
}

// An action is set.
pub fn set_action(block: &mut [u64], client: bool, machine: u64, a: ScheduledAction) -> Answer
    ensures { Outcome block.old (set_action (slot_in client machine) (action_in a)) (answer_of result) block.new }
{
    set(block, Slot { client, machine }, a)
}

// An action is cleared in accepted words; an empty slot stays as it is.
pub fn clear_action_on(block: &mut [u64], client: bool, machine: u64) -> Answer
    requires { Accepted block.old }
    ensures { Outcome block.old (clear_action (slot_in client machine)) (answer_of result) block.new }
{
    clear_on::<ScheduledAction>(block, Slot { client, machine })
}

// An action is cleared.
pub fn clear_action(block: &mut [u64], client: bool, machine: u64) -> Answer
    ensures { Outcome block.old (clear_action (slot_in client machine)) (answer_of result) block.new }
{
    clear::<ScheduledAction>(block, Slot { client, machine })
}

// The first block, and the calls on the words of it that are lent.
ghost use Rattle.std.specs.Prelude.{◌≡◌, ◌≤◌, false, length, slice_set, take};
ghost use Rattle.rules.specs.Arguments.{push, pick_next, sim_network_stack};
ghost use Rattle.event.specs.HandedIn.{event_in};
ghost use Rattle.event.specs.Answers.{answer_of, choice_of, step_of};
ghost use Rattle.simulator.specs.Numbers.{refused_with, slot_in, Lent};
ghost use Rattle.simulator.specs.Openings.{opening_of};
ghost use Rattle.call_list.specs.Lent.{OnLent, OpensLent, Takes, Known, Tested, at_most};
ghost use Rattle.call_list.specs.Props.{Known-prop};

use crate::second::Second;
use answer_text::lists;
use answer_text::text::Output;
use event::SimEvent;
use event::answer::{Answer, Choice, Reason, Refusal, Step};
use moment::Moment;
use simulator::open::Opening;
use simulator::slots;
use simulator::slots::{Held, Slot};

// The words that are lent at the start, of either block.
pub(crate) const LENT: u64 = 8192;

#[derive(Drop)]
pub struct State<'a> {
    pub words: &'a mut [u64],
    // as many are lent to the calls
    pub lent: usize,
    // whether these are known to be an accepted state, so that no call needs to test them
    // (a flag beside the hints, not an Option of them: the calls are lent the hints by `&mut` and would take them apart each time)
    pub known: bool,
    // the last records of the chains, from call to call, of which nothing is promised
    pub hints: [u64; 12],
    pub ghost within: { lent ≤ length words.now },
    pub ghost accepted: { Known known lent words.now } by { Known-prop known lent words.now },
}

// n words, or all there are.
pub(crate) fn at_most(n: u64, all: usize) -> usize
    ensures { result ≡ at_most n all }
{
    all.min(n as usize)
}

// Word i of a block becomes v, where there is one.
pub(crate) fn set_word(block: &mut [u64], i: u64, v: u64)
    ensures { block.new ≡ slice_set block.old i v }
{
    let at = i as usize;
    if at < block.len() {
        block[at] = v;
    }
}

impl<'a> State<'a> {
    // At the start of a list.
    pub fn new(words: &'a mut [u64]) -> State<'a>
        ensures known { result.known ≡ false }
        ensures words { result.words.now ≡ words.entry.now }
        ensures lent { result.lent ≡ at_most 8192 (length words.entry.now) }
        ensures same_reference { result.words.ghost_name ≡ words.entry.ghost_name }
    {
        let lent = at_most(LENT, words.len());
        State {
            words,
            lent,
            known: false,
            hints: [0; 12],
        }
    }

    // The state that the lent words are, and the words, are put. Of what is printed no contract can speak, and `&self` says that the rest stays.
    pub fn show(&self, out: &mut Output<'_>)
        ensures same_reference { out.new.buffer.ghost_name ≡ out.old.buffer.ghost_name }
    {
        lists::show(out, &self.words[..self.lent]);
    }

    pub fn list(&self, out: &mut Output<'_>)
        ensures same_reference { out.new.buffer.ghost_name ≡ out.old.buffer.ghost_name }
    {
        lists::words(out, &self.words[..self.lent]);
    }

    // ---- other words are lent, or they hold others: they are not known to be accepted

    // The first n words are lent, or all there are.
    pub fn lend(&mut self, n: u64)
        ensures lent { self.new.lent ≡ at_most n (length self.old.words.now) }
        ensures words { self.new.words.now ≡ self.old.words.now }
        ensures same_reference { self.new.words.ghost_name ≡ self.old.words.ghost_name }
    {
        self.known = false; // others are lent
        self.lent = at_most(n, self.words.len());
    }

    // Word i becomes v, where there is one.
    pub fn write(&mut self, i: u64, v: u64)
        ensures words { self.new.words.now ≡ slice_set self.old.words.now i v }
        ensures lent { self.new.lent ≡ self.old.lent }
        ensures same_reference { self.new.words.ghost_name ≡ self.old.words.ghost_name }
    {
        self.known = false; // one holds another number
        set_word(self.words, i, v);
    }

    pub fn open(&mut self, o: Opening) -> Answer
        ensures opens { OpensLent self.old.lent self.old.words.now (opening_of o) (answer_of result) self.new.words.now }
        ensures lent { self.new.lent ≡ self.old.lent }
        ensures same_reference { self.new.words.ghost_name ≡ self.old.words.ghost_name }
    {
        self.known = false; // all are written
        simulator::open::open(&mut self.words[..self.lent], o)
    }

    // The words of the second block over these, where there are as many; as many are lent.
    pub fn take_second(&mut self, second: &Second<'_>)
        ensures takes { Takes self.old.words.now second.now.words.now self.new.words.now }
        ensures same_reference { self.new.words.ghost_name ≡ self.old.words.ghost_name }
    {
        self.known = false; // all are those of the second
        self.lent = second.lent.min(self.words.len());
        if second.words.len() == self.words.len() {
            self.words.copy_from_slice(second.words);
        }
    }

    // ---- the calls on accepted words, which leave such

    // Number 1 or 2 of the lent words. The test leaves its hints.
    fn number(&self, hints: &mut [u64; 12]) -> Result<(), Reason>
        ensures { Lent (take self.now.lent self.now.words.now) (refused_with result) }
    {
        simulator::admit::lent(&self.words[..self.lent], hints)
    }

    // The refusal of any call where the lent words have such a number. Words that are known to be accepted are not tested again.
    fn tested(&mut self) -> Result<(), Refusal>
        ensures tested { Tested self.new.lent self.new.words.now result }
        ensures same { (self.new.lent ≡ self.old.lent) × (self.new.words.now ≡ self.old.words.now) }
        ensures same_reference { self.new.words.ghost_name ≡ self.old.words.ghost_name }
    {
        if !self.known {
            let mut hints = [0; 12];
            self.number(&mut hints)?;
            self.hints = hints;
            self.known = true;
        }
        Ok(())
    }

    pub fn push(&mut self, e: SimEvent) -> Answer
        ensures on_lent { OnLent self.old.lent self.old.words.now (push (event_in e)) (answer_of result) self.new.words.now }
        ensures lent { self.new.lent ≡ self.old.lent }
        ensures same_reference { self.new.words.ghost_name ≡ self.old.words.ghost_name }
    {
        self.tested()?;
        simulator::push::push_sim_on(&mut self.words[..self.lent], &mut self.hints, e)
    }

    pub fn set<H: Held>(&mut self, slot: Slot, held: H) -> Answer
        ensures on_lent { OnLent self.old.lent self.old.words.now (H.setting (slot_in slot.client slot.machine) held) (answer_of result) self.new.words.now }
        ensures lent { self.new.lent ≡ self.old.lent }
        ensures same_reference { self.new.words.ghost_name ≡ self.old.words.ghost_name }
    {
        self.tested()?;
        slots::set_on(&mut self.words[..self.lent], slot, held)
    }

    pub fn clear<H: Held>(&mut self, slot: Slot) -> Answer
        ensures on_lent { OnLent self.old.lent self.old.words.now (H.clearing (slot_in slot.client slot.machine)) (answer_of result) self.new.words.now }
        ensures lent { self.new.lent ≡ self.old.lent }
        ensures same_reference { self.new.words.ghost_name ≡ self.old.words.ghost_name }
    {
        self.tested()?;
        slots::clear_on::<H>(&mut self.words[..self.lent], slot)
    }

    pub fn pick_next(&mut self, time: Moment) -> Choice
        ensures on_lent { OnLent self.old.lent self.old.words.now (pick_next time.0) (choice_of result) self.new.words.now }
        ensures lent { self.new.lent ≡ self.old.lent }
        ensures same_reference { self.new.words.ghost_name ≡ self.old.words.ghost_name }
    {
        self.tested()?;
        simulator::choice::pick_next_on(&mut self.words[..self.lent], &mut self.hints, time)
    }

    pub fn sim_network_stack(&mut self, time: Moment, e: SimEvent) -> Step
        ensures on_lent { OnLent self.old.lent self.old.words.now (sim_network_stack time.0 (event_in e)) (step_of result) self.new.words.now }
        ensures lent { self.new.lent ≡ self.old.lent }
        ensures same_reference { self.new.words.ghost_name ≡ self.old.words.ghost_name }
    {
        self.tested()?;
        simulator::step::sim_network_stack_on(
            &mut self.words[..self.lent],
            &mut self.hints,
            e,
            time,
        )
    }
}

// One row of a list: a call on words that are known to be accepted, and its answer in sixteen words.
ghost use Rattle.std.specs.Prelude.{◌≡◌, ◌≤◌, ◌∷◌, ◌++◌, ℕ, List, false, MatchOption};
ghost use Rattle.rules.specs.Arguments.{push, pick_next, sim_network_stack};
ghost use Rattle.event.specs.HandedIn.{event_in, action_in};
ghost use Rattle.event.specs.Answers.{answer_of, choice_of, step_of};
ghost use Rattle.layout.specs.Accepted.{Accepted};
ghost use Rattle.simulator.specs.Numbers.{slot_in};
ghost use Rattle.simulator.specs.Outcome.{Outcome};
ghost use Rattle.calls.specs.Told.{action_for, slot_for, number_in};
ghost use Rattle.calls.specs.Answers.{choice_words, step_words};
ghost use Rattle.calls.specs.Rows.{is_row, call_for, zeros};
ghost use Rattle.calls.specs.Codes.{call_no, code_no, CallReadAs, ReadAs, word_in, event_from as event_from_words, IsRow};
ghost use Rattle.calls.specs.Made.{CallMade, ends_row, last_row};

use crate::{told, turn, written};
use event::answer::{Answer, Choice, Step};
use event::{ScheduledAction, SimEvent};
use moment::Moment;
use simulator::slots;
use simulator::slots::{Held, Slot, Timer};

// The call that a row names.
#[derive(Clone, Copy)]
pub enum CallCode {
    Push,
    SetAction,
    ClearAction,
    SetTimer,
    ClearTimer,
    PickNext,
    SimNetworkStack,
}

// What a row asks for: a call, or a turn, which is two calls and not the absence of one.
#[derive(Clone, Copy)]
pub enum Code {
    Call(CallCode),
    Turn,
}

// A word that names none.
#[derive(Clone, Copy)]
pub struct NoCode;

impl TryFrom<u64> for CallCode {
    type Error = NoCode;

    ghost try_from_gives = { CallReadAs };

    fn try_from(word: u64) -> Result<Self, NoCode> {
        match word {
            0 => Ok(CallCode::Push),
            1 => Ok(CallCode::SetAction),
            2 => Ok(CallCode::ClearAction),
            3 => Ok(CallCode::SetTimer),
            4 => Ok(CallCode::ClearTimer),
            5 => Ok(CallCode::PickNext),
            6 => Ok(CallCode::SimNetworkStack),
            _ => Err(NoCode),
        }
    }
}

// By a row's first word.
impl TryFrom<u64> for Code {
    type Error = NoCode;

    ghost try_from_gives = { ReadAs };

    fn try_from(word: u64) -> Result<Self, NoCode> {
        match word {
            7 => Ok(Code::Turn),
            _ => Ok(Code::Call(CallCode::try_from(word)?)),
        }
    }
}

// ---- the answers, in sixteen words

// An answer that is a number alone.
// The four rows, here and in turn.rt, show their words in their places, as docs/CALLS.md numbers them.
pub fn number_words(n: u64) -> [u64; 16]
    ensures { result ≡ n ∷ zeros 15 }
{
    [n, 0, 0, 0, 0, 0, 0, 0, 0, 0, 0, 0, 0, 0, 0, 0]
}

// The answer of a call that answers no more than a number.
fn answer_row(a: Answer) -> [u64; 16]
    ensures { result ≡ number_in (answer_of a) ∷ zeros 15 }
{
    number_words(told::number(a))
}

// The answer of a choice.
pub fn choice_row(a: Choice) -> [u64; 16]
    ensures { result ≡ number_in (choice_of a) ∷ choice_words (choice_of a) ++ zeros 5 }
{
    let n = told::number(a);
    let w = written::choice_words(a);
    [
        n, w[0], w[1], w[2], w[3], w[4], w[5], w[6], w[7], w[8], w[9], 0, 0, 0, 0, 0,
    ]
}

// The answer of a network step.
fn step_row(a: Step) -> [u64; 16]
    ensures { result ≡ number_in (step_of a) ∷ step_words (step_of a) ++ zeros 12 }
{
    let n = told::number(a);
    let w = written::step_words(a);
    [n, w[0], w[1], w[2], 0, 0, 0, 0, 0, 0, 0, 0, 0, 0, 0, 0]
}

// ---- a row

// What a call is handed: the twelve words of a row, whatever the first of them is.
#[derive(Clone, Copy)]
pub struct Arguments<'a> {
    pub words: &'a [u64; 12],
}

impl Arguments<'_> {
    // The event whose eight words begin at word `at`.
    fn event(&self, at: usize) -> SimEvent
        requires { at ≤ 2 }
        ensures { event_in result ≡ event_from_words self.now.words.now at }
    {
        let kind = self.words[at];
        let moment = self.words[at + 1];
        let delay = self.words[at + 2];
        let side = self.words[at + 3];
        let padding = self.words[at + 4];
        let bypass = self.words[at + 5];
        let replace = self.words[at + 6];
        let machine = self.words[at + 7];
        told::event_from(kind, moment, delay, side, padding, bypass, replace, machine)
    }

    fn slot(&self) -> Slot
        ensures { slot_in result.client result.machine ≡ slot_for (word_in self.now.words.now 1) (word_in self.now.words.now 2) }
    {
        told::slot_from(self.words[1], self.words[2])
    }

    fn action(&self) -> ScheduledAction
        ensures { action_in result ≡ action_for (word_in self.now.words.now 3) (word_in self.now.words.now 4) (word_in self.now.words.now 5) (word_in self.now.words.now 6) (word_in self.now.words.now 7) }
    {
        let kind = self.words[3];
        let moment = self.words[4];
        let duration = self.words[5];
        let bypass = self.words[6];
        let replace = self.words[7];
        told::action_from(kind, moment, duration, bypass, replace)
    }

    // The time of a choice, of a step and of a turn.
    fn time(&self) -> Moment
        ensures { result.0 ≡ word_in self.now.words.now 1 }
    {
        Moment(self.words[1])
    }

    fn timer(&self) -> Timer
        ensures { result.0.0 ≡ word_in self.now.words.now 3 }
    {
        Timer(Moment(self.words[3]))
    }

    // Of an accepted block, as in all that write: a struct that holds a block by `&mut` would need a clause about its reference instead.
    fn push_sim(&self, block: &mut [u64], hints: &mut [u64; 12]) -> Answer
        requires { Accepted block.old }
        ensures { Outcome block.old (push (event_from_words self.now.words.now 1)) (answer_of result) block.new }
    {
        simulator::push::push_sim_on(block, hints, self.event(1))
    }

    fn set<H: Held>(&self, block: &mut [u64], held: H) -> Answer
        requires { Accepted block.old }
        ensures { Outcome block.old (H.setting (slot_for (word_in self.now.words.now 1) (word_in self.now.words.now 2)) held) (answer_of result) block.new }
    {
        slots::set_on(block, self.slot(), held)
    }

    fn clear<H: Held>(&self, block: &mut [u64]) -> Answer
        requires { Accepted block.old }
        ensures { Outcome block.old (H.clearing (slot_for (word_in self.now.words.now 1) (word_in self.now.words.now 2))) (answer_of result) block.new }
    {
        slots::clear_on::<H>(block, self.slot())
    }

    fn pick_next(&self, block: &mut [u64], hints: &mut [u64; 12]) -> Choice
        requires { Accepted block.old }
        ensures { Outcome block.old (pick_next (word_in self.now.words.now 1)) (choice_of result) block.new }
    {
        simulator::choice::pick_next_on(block, hints, self.time())
    }

    fn sim_network_stack(&self, block: &mut [u64], hints: &mut [u64; 12]) -> Step
        requires { Accepted block.old }
        ensures { Outcome block.old (sim_network_stack (word_in self.now.words.now 1) (event_from_words self.now.words.now 2)) (step_of result) block.new }
    {
        simulator::step::sim_network_stack_on(block, hints, self.event(2), self.time())
    }

    // The call of this code, and its answer. No word of theirs need be the code.
    pub fn call(&self, code: CallCode, block: &mut [u64], hints: &mut [u64; 12]) -> [u64; 16]
        requires { Accepted block.old }
        ensures { CallMade block.old (call_for (call_no code) (word_in self.now.words.now)) result block.new }
    {
        match code {
            CallCode::Push => answer_row(self.push_sim(block, hints)),
            CallCode::SetAction => answer_row(self.set(block, self.action())),
            CallCode::ClearAction => answer_row(self.clear::<ScheduledAction>(block)),
            CallCode::SetTimer => answer_row(self.set(block, self.timer())),
            CallCode::ClearTimer => answer_row(self.clear::<Timer>(block)),
            CallCode::PickNext => choice_row(self.pick_next(block, hints)),
            CallCode::SimNetworkStack => step_row(self.sim_network_stack(block, hints)),
        }
    }
}

// A row that asks for a call or a turn: its twelve words, of which the first is its code.
#[derive(Clone, Copy)]
pub struct Row<'a> {
    pub code: Code,
    pub words: &'a [u64; 12],
    pub ghost coded: { code_no code ≡ word_in words.now 0 },
}

impl<'a> Row<'a> {
    // Of these words, unless they ask for nothing.
    pub fn read(words: &'a [u64; 12]) -> Option<Row<'a>>
        ensures { MatchOption result (is_row (word_in words.now 0) ≡ false) (λ r. r.words.now ≡ words.now) }
    {
        let code = Code::try_from(words[0]).ok()?;
        Some(Row { code, words })
    }
}

impl Row<'_> {
    // The time of a choice, of a step and of a turn.
    pub fn time(&self) -> Moment
        ensures { result.0 ≡ word_in self.now.words.now 1 }
    {
        Arguments { words: self.words }.time()
    }

    // The call that it names, and its answer.
    pub fn call(&self, code: CallCode, block: &mut [u64], hints: &mut [u64; 12]) -> [u64; 16]
        requires { Accepted block.old }
        ensures { CallMade block.old (call_for (call_no code) (word_in self.now.words.now)) result block.new }
    {
        Arguments { words: self.words }.call(code, block, hints)
    }

    // Whether the list ends after it, whose answer is given.
    pub fn ends(&self, words: [u64; 16]) -> bool
        ensures { (rows : List ℕ) (at : ℕ) → IsRow rows at self.now.words.now → result ≡ ends_row rows at words }
    {
        match self.code {
            Code::Turn => turn::ends(words, self.words[2]),
            _ => false,
        }
    }

    // The moment of the last event chosen, after it.
    pub fn last_after(&self, words: [u64; 16], last: u64) -> u64
        ensures { (rows : List ℕ) (at : ℕ) → IsRow rows at self.now.words.now → result ≡ last_row rows at words last }
    {
        match self.code {
            Code::Turn | Code::Call(CallCode::PickNext) => turn::last(words, last),
            _ => last,
        }
    }
}

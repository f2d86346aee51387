// What a line asks for: its call, with what its arguments stand for.
ghost use Rattle.std.specs.Prelude.{◌≡◌, ◌+◌, ◌≤◌, length};
ghost use Rattle.event.specs.HandedIn.{event_in, action_in};
ghost use Rattle.simulator.specs.Numbers.{slot_in};
ghost use Rattle.simulator.specs.Openings.{rate_of, opening_of};
ghost use Rattle.call_words.specs.Shapes.{shape_of};
ghost use Rattle.call_words.specs.Asked.{asks, asks_of, asked_or_bad, lends_within, writes_within, is_set, event_at, slot_at, action_at, rate_at, opening_at, understood as understood_as};

use crate::names::{Block, Name};
use crate::shapes::{Argument, Form};
use crate::{names, shapes};
use event::{ActionKind, Kind, ScheduledAction, SimEvent};
use moment::{Length, Moment};
use simulator::open::{Opening, SideOpening};
use simulator::slots::Slot;

// The words of each of the program's two blocks.
pub const WORDS: u64 = 8192;

// A call on the state, with its arguments.
#[derive(Clone, Copy)]
pub enum Call {
    Push(SimEvent),
    SetAction(Slot, ScheduledAction),
    ClearAction(Slot),
    SetTimer(Slot, Moment),
    ClearTimer(Slot),
    PickNext(Moment),
    SimNetworkStack(Moment, SimEvent),
}

// What a line asks for. `Lend` reaches to WORDS, `Word` below it.
#[derive(Clone, Copy)]
pub enum Asked {
    Lend(Block, u64),
    Word(Block, u64, u64),
    Open(Opening),
    Make(Call),
    Show,
    Words(Block),
    TakeSecond,
    Pack,
}

// A line that is no call, or whose arguments are not those of its call.
#[derive(Clone, Copy, PartialEq, Eq)]
pub struct BadLine;

// ---- the arguments

// The event whose first word is at this argument: 0 in a push, 1 in a network step.
pub fn event_from(arguments: &[Argument], at: usize) -> SimEvent
    requires { at + 8 ≤ length arguments.now }
    ensures { event_in result ≡ event_at arguments.now at }
{
    SimEvent {
        kind: Kind(arguments[at].value),
        moment: Moment(arguments[at + 1].value),
        delay: Length(arguments[at + 2].value),
        client: arguments[at + 3].value == 1,
        padding: arguments[at + 4].value == 1,
        bypass: arguments[at + 5].value == 1,
        replace: arguments[at + 6].value == 1,
        machine: arguments[at + 7].value,
    }
}

// The slot of a line that has one is its first two arguments: 1 for the client, and the machine.
pub fn slot_from(arguments: &[Argument]) -> Slot
    requires { 2 ≤ length arguments.now }
    ensures client { result.client ≡ is_set arguments.now 0 }
    ensures slot { slot_in result.client result.machine ≡ slot_at arguments.now }
{
    Slot {
        client: arguments[0].value == 1,
        machine: arguments[1].value,
    }
}

pub fn action_from(arguments: &[Argument]) -> ScheduledAction
    requires { 7 ≤ length arguments.now }
    ensures { action_in result ≡ action_at arguments.now }
{
    ScheduledAction {
        kind: ActionKind(arguments[2].value),
        moment: Moment(arguments[3].value),
        duration: Length(arguments[4].value),
        bypass: arguments[5].value == 1,
        replace: arguments[6].value == 1,
    }
}

fn rate_from(arguments: &[Argument], at: usize) -> Option<u64>
    requires { at + 1 ≤ length arguments.now }
    ensures { rate_of result ≡ rate_at arguments.now at }
{
    let a = arguments[at];
    (a.form != Form::Absent).then_some(a.value)
}

pub fn opening_from(arguments: &[Argument]) -> Opening
    requires { 10 ≤ length arguments.now }
    ensures { opening_of result ≡ opening_at arguments.now }
{
    let client = SideOpening {
        action_delay: Length(arguments[4].value),
        reporting_delay: Length(arguments[6].value),
        machines: arguments[8].value,
    };
    let server = SideOpening {
        action_delay: Length(arguments[5].value),
        reporting_delay: Length(arguments[7].value),
        machines: arguments[9].value,
    };
    Opening {
        network_delay: Length(arguments[0].value),
        network_rate: rate_from(arguments, 1),
        queue_rate: rate_from(arguments, 2),
        window: Length(arguments[3].value),
        client,
        server,
    }
}

// ---- the line

// `lend` and `lend_second` reach to WORDS, `word` and `word_second` below it.
fn lend(block: Block, arguments: &[Argument]) -> Result<Asked, BadLine>
    requires { 1 ≤ length arguments.now }
    ensures { asked_or_bad result ≡ lends_within block arguments.now }
{
    let n = arguments[0].value;
    if n > WORDS {
        return Err(BadLine);
    }
    Ok(Asked::Lend(block, n))
}

fn word(block: Block, arguments: &[Argument]) -> Result<Asked, BadLine>
    requires { 2 ≤ length arguments.now }
    ensures { asked_or_bad result ≡ writes_within block arguments.now }
{
    let i = arguments[0].value;
    if i >= WORDS {
        return Err(BadLine);
    }
    Ok(Asked::Word(block, i, arguments[1].value))
}

// What a line of this name asks for with these arguments.
#[tactic(auto, unfolding(crate::specs::Asked::asks))]
fn asked_for(name: Name, arguments: &[Argument]) -> Result<Asked, BadLine>
    requires { length (shape_of name) ≤ length arguments.now }
    ensures { asked_or_bad result ≡ asks name arguments.now }
{
    let call = match name {
        Name::Lend(block) => return lend(block, arguments),
        Name::Word(block) => return word(block, arguments),
        Name::Open => Asked::Open(opening_from(arguments)),
        Name::Push => Asked::Make(Call::Push(event_from(arguments, 0))),
        Name::SetAction => {
            Asked::Make(Call::SetAction(slot_from(arguments), action_from(arguments)))
        },
        Name::ClearAction => Asked::Make(Call::ClearAction(slot_from(arguments))),
        Name::SetTimer => {
            let moment = Moment(arguments[2].value);
            Asked::Make(Call::SetTimer(slot_from(arguments), moment))
        },
        Name::ClearTimer => Asked::Make(Call::ClearTimer(slot_from(arguments))),
        Name::PickNext => Asked::Make(Call::PickNext(Moment(arguments[0].value))),
        Name::SimNetworkStack => {
            let time = Moment(arguments[0].value);
            Asked::Make(Call::SimNetworkStack(time, event_from(arguments, 1)))
        },
        Name::Show => Asked::Show,
        Name::Words(block) => Asked::Words(block),
        Name::TakeSecond => Asked::TakeSecond,
        Name::Pack => Asked::Pack,
    };
    Ok(call)
}

// What a line asks for with this first word and these arguments.
#[tactic(auto, using(crate::proofs::PairLaws::fits_length), unfolding(crate::specs::Asked::understood))]
pub fn understood(letters: &[u8], arguments: &[Argument]) -> Result<Asked, BadLine>
    ensures { asked_or_bad result ≡ understood_as letters.now arguments.now }
{
    let name = names::named(letters).ok_or(BadLine)?;
    if !shapes::arguments_fit(name, arguments) {
        return Err(BadLine);
    }
    asked_for(name, arguments)
}

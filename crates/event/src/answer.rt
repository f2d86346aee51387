// What the calls answer.
ghost use Rattle.std.specs.Prelude.{◌≡◌};
ghost use Rattle.event.specs.Answers.{number_of, refusal_for};

use crate::SimEvent;
use moment::Moment;

// Why a call is refused: document 01's numbers of a refusal.
#[derive(Clone, Copy, PartialEq, Eq)]
pub enum Reason {
    // the length isn't 256 + 4R
    WrongLength = 1,
    // the words are no accepted state
    NotAccepted = 2,
    // the state is marked ended
    Ended = 3,
    // an opening value is outside its limits
    OpeningOutside = 4,
    // the machine is not below its side's count
    NoMachine = 5,
    // the number is no event's kind, or no action that a slot may hold
    NoKind = 6,
    // a moment or a length is above its limit
    AboveLimit = 7,
    // an unpadded `TunnelSent` has a delay above its moment
    DelayAboveMoment = 8,
    // used and reserved records would exceed R
    NoRoom = 9,
    // a sum that the rules form, or the round total, would pass its limit
    PastLimit = 10,
}

impl Reason {
    pub fn number(self) -> u64
        ensures { result ≡ number_of self }
    {
        self as u64
    }
}

// A refusal, and the rounds finished before it.
#[derive(Clone, Copy)]
pub struct Refusal {
    pub reason: Reason,
    pub rounds: u64,
}

// One that comes before any round.
impl From<Reason> for Refusal {
    ghost from_gives = { λ reason refusal. refusal ≡ refusal_for reason };

    fn from(reason: Reason) -> Refusal {
        Refusal { reason, rounds: 0 }
    }
}

// The answer of a call that makes no round and says neither yes nor no.
pub type Answer = Result<(), Refusal>;

// What a choice found, none where nothing is left, and the rounds made.
#[derive(Clone, Copy)]
pub struct Chosen {
    pub event: Option<SimEvent>,
    pub rounds: u64,
}

pub type Choice = Result<Chosen, Refusal>;

// A network step: whether there is network activity, and when the packet count falls: the first moment at which the oldest stamp is too old, where
// there is one within the limit.
#[derive(Clone, Copy)]
pub struct Stepped {
    pub active: bool,
    pub falls: Option<Moment>,
}

pub type Step = Result<Stepped, Refusal>;

// The words of the header that belong to a side, and the numbers of its chains.
ghost use Rattle.std.specs.Prelude.{◌≡◌, ◌+◌, ◌*◌, ◌<◌, ◌≤◌};
ghost use Rattle.event.specs.HandedIn.{side_of};
ghost use Rattle.layout.specs.Changes.{side_no};
ghost use Rattle.queue.specs.Queues.{queue_no};

// Of both sides together.
pub const NETWORK_DELAY: usize = 0;

pub const WINDOW: usize = 3;

pub const ENDED: usize = 16;

pub const ROUNDS: usize = 17;

// The first of the two words of a side's field: the client's; the server's comes after it.
pub const ACTION_DELAY: usize = 4;

pub const REPORTING_DELAY: usize = 6;

pub const MACHINES: usize = 8;

pub const SUM: usize = 10;

pub const BLOCK: usize = 12;

pub const BYPASSABLE: usize = 14;

// The timers of the 32 slots, a word each, and their actions, three words each.
pub const TIMERS: usize = 64;

pub const ACTIONS: usize = 96;

// The chains of the free records, of the client's stamps, and of the aggregates of both sides.
pub const FREE: usize = 0;

const STAMPS: usize = 5;

pub const AGGREGATES: usize = 11;

// The queues of a side's events, with the numbers of the client's chains; the server's are five above.
#[derive(Clone, Copy, PartialEq, Eq)]
pub enum Queue {
    Base = 1,
    Blocking = 2,
    Bypassable = 3,
    Internal = 4,
}

impl Queue {
    // The number of its chain.
    pub fn chain(self, client: bool) -> usize
        ensures { (result ≡ queue_no self + 5 * side_no (side_of client)) × (result ≤ 10) }
    {
        let number = self as usize;
        if client { number } else { number + 5 }
    }
}

// Where the word of a side's field stands.
// This and the numbers of chains and slots are a line each, which one function of three numbers would not shorten.
pub fn place(field: usize, client: bool) -> usize
    requires { field < 255 }
    ensures { (result ≡ field + side_no (side_of client)) × (result ≤ field + 1) }
{
    if client { field } else { field + 1 }
}

// The number of the chain of a side's stamps.
pub fn stamps(client: bool) -> usize
    ensures { (result ≡ 5 + 5 * side_no (side_of client)) × (result ≤ 10) }
{
    if client { STAMPS } else { STAMPS + 5 }
}

// A machine's place for a timer and an action.
#[derive(Clone, Copy)]
pub struct Slot {
    pub client: bool,
    pub machine: u64,
    pub ghost known: { machine < 16 },
}

impl Slot {
    // Its number: the client's sixteen, then the server's.
    pub fn number(self) -> usize
        ensures { (result ≡ 16 * side_no (side_of self.client) + self.machine) × (result < 32) }
    {
        let own = self.machine as usize;
        if self.client { own } else { 16 + own }
    }
}

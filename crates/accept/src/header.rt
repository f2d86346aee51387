// The header's words: what they may hold, and what is reserved for them.
ghost use Rattle.std.specs.Prelude.{◌≡◌, Bool, ℕ, ◌+◌, ◌*◌, ◌<◌, ◌≤◌, length};
ghost use Rattle.layout.specs.Decides.{Decides};
ghost use Rattle.layout.specs.Records.{chain_count};
ghost use Rattle.layout.specs.Header.{Limited, ActionOk, SlotEmpty, SlotOk, SlotsOk, block_of, timer_of, action_of, held, reserved as reserved_of};
ghost use Rattle.accept.specs.Slots.{Zeros, EmptyIn, RoomIn, FoundIn, FoundAll};

use moment::{Length, Moment};

// For moments, sums, the lengths of aggregates and the round total.
pub const MOMENT: u64 = Moment::LIMIT;

// A block end and a timer are held as their moment + 1.
const MOMENT_AFTER: u64 = MOMENT + 1;

// For delays and durations.
const DURATION: u64 = Length::LIMIT;

// For a rate, 0 where it is absent.
const RATE: u64 = 4_294_967_295;

// The machines of a side.
const MACHINES: u64 = 16;

// A bypassable flag is set or not.
const FLAG: u64 = 1;

// The ended mark is set or not: a state that is marked ended is accepted too.
const ENDED: u64 = 1;

// The limit of each of the words 0 to 17.
const LIMITS: [u64; 18] = [
    DURATION,
    RATE,
    RATE,
    DURATION,
    DURATION,
    DURATION,
    DURATION,
    DURATION,
    MACHINES,
    MACHINES,
    MOMENT,
    MOMENT,
    MOMENT_AFTER,
    MOMENT_AFTER,
    FLAG,
    FLAG,
    ENDED,
    MOMENT,
];

// Whether the three words of an action slot are in order.
pub fn action_ok(word: u64, moment: u64, duration: u64) -> bool
    ensures { Decides (ActionOk word moment duration) result }
{
    if word > 15 || moment > MOMENT || duration > DURATION {
        return false;
    }
    match word % 4 {
        1 => duration == 0,
        2 => true,
        3 => false,
        _ => word == 0 && moment == 0 && duration == 0,
    }
}

// Whether no word is set. They are or-ed together, so that no word needs a branch of its own.
fn none_set(words: &[u64]) -> bool
    ensures { Decides (Zeros words.now) result }
{
    words.iter().fold(0, |any, x| any | *x) == 0
}

// The slots from one number on, below another.
#[derive(Clone, Copy)]
struct Slots {
    from: usize,
    end: usize,
    ghost ordered: { from ≤ end },
    ghost small: { end ≤ 32 },
}

impl Slots {
    fn between(from: usize, end: usize) -> Slots
        requires { (from ≤ end) × (end ≤ 32) }
        ensures from { result.from ≡ from }
        ensures end { result.end ≡ end }
    {
        Slots { from, end }
    }
}

// The words of a header, to be tested.
// `queue::Words` lies above this crate, and methods stand in their type's crate, so this is a type of its own.
#[derive(Clone, Copy)]
pub struct Header<'a> {
    pub words: &'a [u64; 256],
}

impl Header<'_> {
    // Whether each of the words 0 to 17 is within its limit.
    pub fn limited(&self) -> bool
        ensures { Decides (Limited self.now.words.now) result }
    {
        let words = self.words;
        words.iter().zip(LIMITS.iter()).all(|(x, limit)| x <= limit)
    }

    // Whether slot j holds nothing. Most slots do, and such a slot is in order whatever its side's machine count.
    // j stays a number, here and below: it indexes three arrays, and a type would be unwrapped at each.
    fn slot_empty(&self, j: usize) -> bool
        requires { j < 32 }
        ensures { Decides (SlotEmpty self.now.words.now j) result }
    {
        self.words[64 + j] == 0
            && self.words[96 + 3 * j] == 0
            && self.words[97 + 3 * j] == 0
            && self.words[98 + 3 * j] == 0
    }

    // Whether slot j is in order.
    fn slot_ok(&self, j: usize) -> bool
        requires { j < 32 }
        ensures { Decides (SlotOk self.now.words.now j) result }
    {
        if self.slot_empty(j) {
            return true;
        }
        let timer = self.words[64 + j];
        let action = self.words[96 + 3 * j];
        let machine = (j % 16) as u64;
        timer <= MOMENT_AFTER
            && action_ok(action, self.words[97 + 3 * j], self.words[98 + 3 * j])
            && (machine < self.words[8 + j / 16] || timer == 0 && action == 0)
    }

    // What slot j keeps in reserve.
    fn slot_room(&self, j: usize) -> u64
        requires { j < 32 }
        ensures { (result ≡ held (timer_of self.now.words.now j) + 4 * held (action_of self.now.words.now j)) × (result ≤ 5) }
    {
        u64::from(self.words[64 + j] != 0) + 4 * u64::from(self.words[96 + 3 * j] != 0)
    }

    // What the blocks keep in reserve.
    fn blocks_room(&self) -> u64
        ensures { (result ≡ 3 * held (block_of self.now.words.now 0) + 3 * held (block_of self.now.words.now 1)) × (result ≤ 6) }
    {
        3 * u64::from(self.words[12] != 0) + 3 * u64::from(self.words[13] != 0)
    }

    // Whether these slots are empty.
    fn all_empty(&self, slots: Slots) -> bool
        ensures { Decides (EmptyIn self.now.words.now slots.from slots.end) result }
    {
        let words = self.words;
        none_set(&words[64 + slots.from..64 + slots.end])
            && none_set(&words[96 + 3 * slots.from..96 + 3 * slots.end])
    }

    // The test of these slots: each is tested, and what it keeps in reserve is added in the same loop. Answers the records that they keep, and none where one is
    // not in order.
    fn each_slot(&self, slots: Slots) -> Option<u64>
        ensures { FoundIn self.now.words.now slots.from slots.end result }
    {
        let mut reserve = 0;
        for j in slots.from..slots.end {
            if !self.slot_ok(j) {
                return None;
            }
            reserve += self.slot_room(j);
        }
        Some(reserve)
    }

    // The test of all slots: those of the machines one by one; those above a side's machine count have to be empty, as most slots are. Answers the records that
    // they and the blocks keep in reserve, and none where a slot is not in order.
    pub fn test_slots(&self) -> Option<u64>
        requires limited { Limited self.now.words.now }
        ensures { FoundAll self.now.words.now result }
    {
        let client = self.words[8] as usize;
        let server = 16 + self.words[9] as usize;
        if !self.all_empty(Slots::between(client, 16)) {
            return None;
        }
        if !self.all_empty(Slots::between(server, 32)) {
            return None;
        }
        let of_client = self.each_slot(Slots::between(0, client))?;
        let of_server = self.each_slot(Slots::between(16, server))?;
        Some(self.blocks_room() + of_client + of_server)
    }

    // What these slots keep in reserve.
    fn slots_room(&self, slots: Slots) -> u64
        ensures { RoomIn self.now.words.now slots.from slots.end result }
    {
        (slots.from..slots.end).map(|j| self.slot_room(j)).sum()
    }

    // The records kept in reserve, where the slots are in order: those of the machines alone keep any.
    pub fn in_reserve(&self) -> u64
        requires limited { Limited self.now.words.now }
        requires slots { SlotsOk self.now.words.now }
        ensures { (result ≡ reserved_of self.now.words.now) × (result ≤ 166) }
    {
        let client = self.slots_room(Slots::between(0, self.words[8] as usize));
        let server = self.slots_room(Slots::between(16, 16 + self.words[9] as usize));
        self.blocks_room() + client + server
    }
}

// The records that a header keeps in reserve, where its slots are in order.
pub fn reserved(header: &[u64; 256]) -> u64
    requires limited { Limited header.now }
    requires slots { SlotsOk header.now }
    ensures { (result ≡ reserved_of header.now) × (result ≤ 166) }
{
    Header { words: header }.in_reserve()
}

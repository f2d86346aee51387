// A state that is only read.
ghost use Rattle.std.specs.Prelude.{◌≡◌, ◌+◌, ◌*◌, ◌/◌, ◌%◌, ◌<◌, ◌≤◌, length, get_or, take, drop};
ghost use Rattle.event.specs.HandedIn.{side_of};
ghost use Rattle.queue_event.specs.Tag.{flag};
ghost use Rattle.queue_event.specs.Walks.{FirstOf, left};
ghost use Rattle.layout.specs.Accepted.{Accepted, Good};
ghost use Rattle.layout.specs.Records.{head_of, count_of, chain_at};
ghost use Rattle.layout.specs.Changes.{side_no};
ghost use Rattle.layout.proofs.Props.{Good-prop};

use crate::header;
use crate::header::Slot;
use event::{ActionKind, ScheduledAction};
use moment::{Length, Moment, Span, Sum};
use queue_event::chain::{Entry, Linked};
use queue_event::read::Record;

// The words that are read as a state's header.
#[derive(Clone, Copy)]
pub struct Words<'a> {
    pub header: &'a [u64; 256],
}

impl<'a> Words<'a> {
    // Of a block with a header.
    pub fn of(block: &'a [u64]) -> Words<'a>
        requires { 256 ≤ length block.now }
        ensures { result.header.now ≡ take 256 block.now }
    {
        let (header, _) = block.split_first_chunk().unwrap();
        Words { header }
    }
}

impl Words<'_> {
    // The word of a side's field: the client's, or the one after it.
    pub fn of_side(&self, field: usize, client: bool) -> u64
        requires { field < 255 }
        ensures { result ≡ get_or self.now.header.now (field + side_no (side_of client)) 0 }
    {
        self.header[header::place(field, client)]
    }

    // Chain k, as the header has it.
    // k stays a number below 12, here and below: it indexes hints, words and tags.
    pub fn entry(&self, k: usize) -> Entry
        requires { k < 12 }
        ensures head { result.head ≡ head_of self.now.header.now k }
        ensures count { result.count ≡ count_of self.now.header.now k }
    {
        let words = self.header;
        Entry::of(words, k)
    }
}

impl Words<'_> {
    ghost use Rattle.std.specs.Prelude.{ℕ, List, [], ◌^◌};
    ghost use Rattle.rules.specs.Limits.{duration_limit};
    ghost use Rattle.layout.specs.Header.{Limited};
    ghost use Rattle.queue.specs.Heads.{side_held};
    ghost use Rattle.queue.specs.Views.{moment_no};

    // When the side's block ends, even a past one.
    pub fn block_end(&self, client: bool) -> Option<Moment>
        ensures { (rs : List ℕ) → moment_no result ≡ (side_held self.now.header.now rs client).block_end }
    {
        Moment::from_stored(self.of_side(header::BLOCK, client))
    }

    // The flag of a side's block, as it stands.
    pub fn is_bypassable(&self, client: bool) -> bool
        ensures { (rs : List ℕ) → result ≡ (side_held self.now.header.now rs client).block_bypassable }
    {
        self.of_side(header::BYPASSABLE, client) != 0
    }

    // A side's action delay, its reporting delay, and both together.
    #[tactic(auto, using(crate::proofs::ViewLaws::action_held))]
    pub fn action_delay(&self, client: bool) -> Length
        ensures { (rs : List ℕ) → result.0 ≡ (side_held self.now.header.now rs client).fixed.action_delay }
    {
        Length(self.of_side(header::ACTION_DELAY, client))
    }

    #[tactic(auto, using(crate::proofs::ViewLaws::reporting_held))]
    pub fn reporting_delay(&self, client: bool) -> Length
        ensures { (rs : List ℕ) → result.0 ≡ (side_held self.now.header.now rs client).fixed.reporting_delay }
    {
        Length(self.of_side(header::REPORTING_DELAY, client))
    }

    pub fn both_delays(&self, client: bool) -> Length
        requires { (side_held self.now.header.now [] client).fixed.action_delay + (side_held self.now.header.now [] client).fixed.reporting_delay < 2 ^ 64 }
        ensures is { (rs : List ℕ) → result.0 ≡ (side_held self.now.header.now rs client).fixed.action_delay + (side_held self.now.header.now rs client).fixed.reporting_delay }
        ensures small { Limited self.now.header.now → result.0 ≤ duration_limit + duration_limit }
    {
        self.action_delay(client).plus(self.reporting_delay(client))
    }
}

// An action from its three words: kind and flags, moment, duration.
fn action_of(word: u64, moment: u64, duration: u64) -> ScheduledAction
    ensures { result ≡ record { kind = record { 0 = word % 4 }; moment = record { 0 = moment }; duration = record { 0 = duration }; bypass = flag (word / 4 % 2); replace = flag (word / 8 % 2) } }
{
    ScheduledAction {
        kind: ActionKind(word % 4),
        moment: Moment(moment),
        duration: Length(duration),
        bypass: word / 4 % 2 != 0,
        replace: word / 8 % 2 != 0,
    }
}

impl Words<'_> {
    ghost use Rattle.std.specs.Prelude.{ℕ, List};
    ghost use Rattle.rules.specs.ChoiceRound.{action_in};
    ghost use Rattle.layout.specs.Header.{Limited};
    ghost use Rattle.layout.specs.Layout.{state_from};
    ghost use Rattle.queue.specs.Heads.{side_held};
    ghost use Rattle.queue.specs.Slots.{held_at, slot_from, action_no, KindIn};
    ghost use Rattle.queue.specs.Views.{moment_no};

    // The network delay, and the window of stamps.
    // Two functions, as the settings are two: a generic one would have the place for a parameter and no name.
    #[tactic(auto, using(crate::proofs::ViewLaws::network_held, crate::proofs::ViewLaws::network_within))]
    pub fn network_delay(&self) -> Span
        requires { Limited self.now.header.now }
        ensures { (rs : List ℕ) → result.length.0 ≡ (state_from self.now.header.now rs).settings.network_delay }
    {
        Span {
            length: Length(self.header[header::NETWORK_DELAY]),
        }
    }

    #[tactic(auto, using(crate::proofs::ViewLaws::window_held, crate::proofs::ViewLaws::window_within))]
    pub fn window(&self) -> Span
        requires { Limited self.now.header.now }
        ensures { (rs : List ℕ) → result.length.0 ≡ (state_from self.now.header.now rs).settings.window }
    {
        Span {
            length: Length(self.header[header::WINDOW]),
        }
    }

    // The moment of a slot's timer, if one is set.
    pub fn timer(&self, slot: Slot) -> Option<Moment>
        ensures { (rs : List ℕ) → moment_no result ≡ held_at (side_held self.now.header.now rs slot.client).timers slot.machine }
    {
        Moment::from_stored(self.header[header::TIMERS + slot.number()])
    }

    // The action of a slot, if there is one: the first of its three words is 0 where there is none.
    pub fn action(&self, slot: Slot) -> Option<ScheduledAction>
        ensures is { (rs : List ℕ) → action_no result ≡ action_in (state_from self.now.header.now rs) (slot_from slot) }
        ensures kind { KindIn self.now.header.now slot result }
    {
        let at = header::ACTIONS + 3 * slot.number();
        let word = self.header[at];
        if word == 0 {
            return None;
        }
        Some(action_of(word, self.header[at + 1], self.header[at + 2]))
    }
}

// The words of an accepted state: its header, and the records after it.
#[derive(Clone, Copy)]
pub struct View<'a> {
    pub words: Words<'a>,
    pub records: &'a [u64],
    pub ghost good: { Good words.header.now records.now } by { Good-prop words.header.now records.now },
}

impl<'a> View<'a> {
    // Of a block.
    // The clause is of the block as it is lent; here the fact goes into the type.
    pub fn of(block: &'a [u64]) -> View<'a>
        requires { Accepted block.now }
        ensures header { result.words.header.now ≡ take 256 block.now }
        ensures records { result.records.now ≡ drop 256 block.now }
    {
        let (header, records) = block.split_first_chunk().unwrap();
        View {
            words: Words { header },
            records,
        }
    }

    // The records of chain k.
    pub fn chain(&self, k: usize) -> Linked<'a>
        requires { k < 12 }
        ensures records { result.records.now ≡ self.now.records.now }
        ensures head { result.chain.head ≡ head_of self.now.words.header.now k }
        ensures count { result.chain.count ≡ count_of self.now.words.header.now k }
        ensures all { left result ≡ chain_at self.now.words.header.now self.now.records.now k }
    {
        Linked {
            records: self.records,
            chain: self.words.entry(k),
        }
    }

    // The first of them, if there is one.
    pub fn head(&self, k: usize) -> Option<Record<'a>>
        requires { k < 12 }
        ensures { FirstOf self.now.records.now (count_of self.now.words.header.now k) (head_of self.now.words.header.now k) result }
    {
        self.chain(k).first()
    }

    // A side of it.
    pub fn side(&self, client: bool) -> SideView<'a>
        ensures view { result.view ≡ self.now }
        ensures client { result.client ≡ client }
    {
        SideView {
            view: *self,
            client,
        }
    }
}

// A side of an accepted state. specs/Views has what it is in the rules (`side_at`).
#[derive(Clone, Copy)]
pub struct SideView<'a> {
    pub view: View<'a>,
    pub client: bool,
}

impl SideView<'_> {
    ghost use Rattle.queue.specs.Views.{side_at};

    // The sum of its delays.
    #[tactic(auto, using(crate::proofs::HeadsSides::sum_held))]
    pub fn sum(&self) -> Sum
        ensures { result.length.0 ≡ (side_at self.now).sum }
    {
        Sum {
            length: Length(self.view.words.of_side(header::SUM, self.client)),
        }
    }
}

// The heads of the queues, as queue_event.rs and queue.rs find them.
ghost use Rattle.std.specs.Prelude.{◌≡◌, Bool};
ghost use Rattle.rules.specs.ChoiceHeads.{side_head, queue_head, waiting_head, passing_head};
ghost use Rattle.queue.specs.Heads.{PeekedIn, PeekedBothIn, head_before, raw_before, key_before, first_in};
ghost use Rattle.queue.specs.Heads.{added_to, chain_head, key_head, KeyOf, SecondSooner};
ghost use Rattle.queue.specs.Views.{state_in, side_at};

use crate::{Queue, SideView, View};
use event::{Kind, SimEvent};
use moment::{Length, Moment};
use queue_event::tag;

// The head of a queue of a side: its record, its event, and its moment as the choice sees it.
#[derive(Clone, Copy)]
pub struct Head {
    pub queue: Queue,
    pub place: u64,
    pub event: SimEvent,
    pub moment: Moment,
}

// What the choice compares of a queue's head: its moment as the choice sees it, and its rank.
// The choice is between these few words, and only the head that it takes is read whole.
#[derive(Clone, Copy)]
pub struct Key {
    pub queue: Queue,
    pub moment: Moment,
    pub rank: u64,
}

impl SideView<'_> {
    // What is added to the moments of a queue: to those of base the side's sum.
    fn added(&self, of: Queue) -> Length
        ensures { result.0 ≡ added_to of (side_at self.now) }
    {
        match of {
            Queue::Base => self.sum().length,
            _ => Length(0),
        }
    }

    // The head of a queue.
    fn head_of(&self, of: Queue) -> Option<Head>
        ensures { PeekedIn self.now.view self.now.client result (chain_head of (side_at self.now)) }
    {
        let first = self.view.head(of.chain(self.client))?;
        let event = first.event(self.client);
        let plus = self.added(of);
        let moment = event.moment.plus(plus);
        Some(Head {
            queue: of,
            place: first.at,
            event,
            moment,
        })
    }
}

// An order of heads or keys.
pub trait Order {
    type Of: Copy;

    ghost before: { Self.Of → Self.Of → Bool };

    // Whether a is strictly before b.
    fn earlier(a: Self::Of, b: Self::Of) -> bool
        ensures { result ≡ before a b };
}

// Heads by moment, sums added, then rank.
pub struct ByMoment;

impl Order for ByMoment {
    type Of = Head;

    ghost before = { head_before };

    fn earlier(a: Head, b: Head) -> bool {
        (a.moment, a.event.kind.rank()) < (b.moment, b.event.kind.rank())
    }
}

// Heads by the moment as it was queued, then rank.
pub struct ByRawMoment;

impl Order for ByRawMoment {
    type Of = Head;

    ghost before = { raw_before };

    fn earlier(a: Head, b: Head) -> bool {
        (a.event.moment, a.event.kind.rank()) < (b.event.moment, b.event.kind.rank())
    }
}

// Keys by moment, then rank.
pub struct ByKey;

impl Order for ByKey {
    type Of = Key;

    ghost before = { key_before };

    fn earlier(a: Key, b: Key) -> bool {
        (a.moment, a.rank) < (b.moment, b.rank)
    }
}

// The first of two, unless the second is strictly before it.
// Of heads that is the rules' choice (`heads_chosen` of proofs/HeadsOrder), and of keys that of the heads they tell of (`keys_chosen` of proofs/HeadsKeys).
pub fn first_of<O: Order>(a: Option<O::Of>, b: Option<O::Of>) -> Option<O::Of>
    ensures { result ≡ first_in O.before a b }
{
    let (Some(x), Some(y)) = (a, b) else {
        return a.or(b);
    };
    if O::earlier(y, x) { b } else { a }
}

impl SideView<'_> {
    // The key of a queue.
    fn key_of(&self, of: Queue) -> Option<Key>
        ensures { KeyOf (side_at self.now) result (chain_head of (side_at self.now)) }
    {
        let first = self.view.head(of.chain(self.client))?;
        let plus = self.added(of);
        let moment = first.moment().plus(plus);
        let kind = Kind(tag::kind(first.tag()));
        Some(Key {
            queue: of,
            moment,
            rank: kind.rank(),
        })
    }

    // `EventQueue::peek`: base, unless the first of the others is strictly earlier.
    fn key(&self) -> Option<Key>
        ensures { KeyOf (side_at self.now) result (side_head (side_at self.now)) }
    {
        let bypassable = self.key_of(Queue::Bypassable);
        let blocking = self.key_of(Queue::Blocking);
        let packet = first_of::<ByKey>(bypassable, blocking);
        let internal = self.key_of(Queue::Internal);
        let others = first_of::<ByKey>(packet, internal);
        let base = self.key_of(Queue::Base);
        first_of::<ByKey>(base, others)
    }

    // The head of the queue that a key names, read whole.
    fn keyed(&self, key: Option<Key>) -> Option<Head>
        ensures { PeekedIn self.now.view self.now.client result (key_head key (side_at self.now)) }
    {
        self.head_of(key?.queue)
    }
}

// Whether the server's head is strictly before the client's, by the delay from the time and then by rank.
fn server_sooner(client: Option<Key>, server: Option<Key>, time: Moment) -> bool
    ensures { SecondSooner time.0 client server result }
{
    let Some(s) = server else {
        return false;
    };
    let Some(c) = client else {
        return true;
    };
    let x = c.moment.since(time);
    let y = s.moment.since(time);
    (y, s.rank) < (x, c.rank)
}

// `SimQueue::peek`: the client's on a tie in delay and rank.
pub fn peek(view: &View, time: Moment) -> Option<Head>
    ensures { PeekedBothIn view.now result (queue_head (state_in view.now) time.0) }
{
    let client = view.side(true);
    let server = view.side(false);
    let first = client.key();
    let second = server.key();
    if server_sooner(first, second, time) {
        return server.keyed(second);
    }
    client.keyed(first)
}

impl SideView<'_> {
    // `peek_blocking`: the first waiting packet; behind a bypassable block the bypassable queue does not wait.
    pub fn peek_blocking(&self, bypassable: bool) -> Option<Head>
        ensures { PeekedIn self.now.view self.now.client result (waiting_head bypassable (side_at self.now)) }
    {
        let blocking = self.head_of(Queue::Blocking);
        if bypassable {
            return blocking;
        }
        let passing = self.head_of(Queue::Bypassable);
        first_of::<ByMoment>(passing, blocking)
    }

    // `peek_non_blocking`: what a block does not hold back; bypassable is weighed against base by the raw moment.
    pub fn peek_non_blocking(&self, bypassable: bool) -> Option<Head>
        ensures { PeekedIn self.now.view self.now.client result (passing_head bypassable (side_at self.now)) }
    {
        let base = self.head_of(Queue::Base);
        let internal = self.head_of(Queue::Internal);
        let found = first_of::<ByMoment>(base, internal);
        if !bypassable {
            return found;
        }
        let packet = self.head_of(Queue::Bypassable);
        first_of::<ByRawMoment>(found, packet)
    }
}

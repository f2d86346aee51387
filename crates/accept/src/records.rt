// The records and their chains: what a record may hold, and what a chain may.
ghost use Rattle.std.specs.Prelude.{◌≡◌, ℕ, ◌<◌, ◌≤◌, is_some, length};
ghost use Rattle.layout.specs.Decides.{Decides};
ghost use Rattle.layout.specs.Records.{KindOk, MachineBound, MachineOk, EventOk, AggregateOk, StampOk, RecordOk, Follows, Chain, ChainsOk, chain_count, counts_to, count_of};

use crate::header::{Header, MOMENT};
use event::Kind;
use moment::Length;
use queue_event::chain::Entry;
use queue_event::{tag, words};

// For the delay of an event.
const DELAY: u64 = Length::DELAY_LIMIT;

// The chains 0 to 11.
const CHAINS: usize = 12;

// Whether an event of this kind and bypass flag belongs to base (1), blocking (2), bypassable (3) or internal (4).
fn kind_ok(place: u64, kind: u64, bypass: u64) -> bool
    requires { (0 < place) × (place < 5) }
    ensures { Decides (KindOk place kind bypass) result }
{
    match place {
        1 => kind == Kind::NORMAL_SENT,
        4 => Kind::NORMAL_SENT < kind && kind <= Kind::TIMER_END,
        _ => kind == Kind::TUNNEL_SENT && bypass == place - 2,
    }
}

// How many machines an event of this kind may name, of a side with so many: four kinds have one, all others name 0.
fn machine_bound(kind: u64, machines: u64) -> u64
    ensures { MachineBound kind machines result }
{
    // an if for each: joined by or, or as a match, they cost more, and this is asked of every event
    if kind == Kind::PADDING_SENT {
        return machines;
    }
    if kind == Kind::BLOCKING_BEGIN {
        return machines;
    }
    if kind > Kind::BLOCKING_END {
        return machines;
    }
    1
}

// Whether an event of this kind may name this machine: one comparison, whatever the kind, since kinds come mixed in a chain.
fn machine_ok(kind: u64, machines: u64, machine: u64) -> bool
    ensures { Decides (MachineOk kind machines machine) result }
{
    machine < machine_bound(kind, machines)
}

// Whether the words are those of an event, in its place.
fn event_ok(place: u64, machines: u64, moment: u64, span: u64, tag: u64) -> bool
    requires { (0 < place) × (place < 5) }
    ensures { Decides (EventOk place machines moment span tag) result }
{
    let kind = tag::kind(tag);
    moment <= MOMENT
        && span <= DELAY
        && tag <= 65_535
        && tag::side_field(tag) == 0
        && kind_ok(place, kind, tag::bypass_field(tag))
        && machine_ok(kind, machines, tag::machine(tag))
}

// Whether the words are those of a pending aggregate.
fn aggregate_ok(moment: u64, span: u64, tag: u64) -> bool
    ensures { Decides (AggregateOk moment span tag) result }
{
    moment <= MOMENT
        && span <= MOMENT
        && (tag == tag::aggregate_tag(true) || tag == tag::aggregate_tag(false))
}

// Whether the words are those of a stamp.
fn stamp_ok(moment: u64, span: u64, tag: u64) -> bool
    ensures { Decides (StampOk moment span tag) result }
{
    moment <= MOMENT && tag <= 15 && span == 0
}

// Whether a record of these words may stand in chain k, whose side has so many machines: the one test of a record.
pub fn record_ok(k: u64, machines: u64, moment: u64, span: u64, tag: u64) -> bool
    requires { k < chain_count }
    ensures { Decides (RecordOk k machines moment span tag) result }
{
    if tag::mark(tag) != k {
        return false;
    }
    // by ifs, in this order: as a match of k it takes half as long again, since the compiler then asks for the number anew at each record
    if k == 11 {
        return aggregate_ok(moment, span, tag);
    }
    if k % 5 != 0 {
        return event_ok(k % 5, machines, moment, span, tag);
    }
    k == 0 || stamp_ok(moment, span, tag)
}

// Whether a record of this moment and rank may come after one of the last moment and rank.
fn follows(k: u64, last_moment: u64, last_rank: u64, moment: u64, rank: u64) -> bool
    ensures { Decides (Follows k last_moment last_rank moment rank) result }
{
    if k % 5 == 0 {
        return true;
    }
    // the moments that fall first: a chain of ors costs more, and this is asked of every record
    if moment < last_moment {
        return false;
    }
    last_moment < moment || last_rank <= rank
}

// The last record of this chain, 0 where it has none, if its records are linked from its head, of number k and in order, of a side with so many machines. Each
// word is read once. Nothing is promised of the last record: a caller that uses it tests it.
// It walks by record numbers: that they are linked is what it tests, so there is no `Linked` yet.
fn chain_ok(rest: &[u64], k: u64, machines: u64, chain: Entry) -> Option<u64>
    requires { (k < chain_count) × (length rest.now ≤ 262140) }
    ensures { Decides (Chain rest.now k machines chain.count 0 0 chain.head) (is_some result) }
{
    let last = (rest.len() / 4) as u64;
    let mut at = chain.head;
    let mut moment: u64 = 0;
    let mut rank: u64 = 0;
    let mut tail: u64 = 0;
    for _ in 0..chain.count {
        if at == 0 || last < at {
            return None;
        }
        let m = words::get(rest, at, 1);
        let tag = words::get(rest, at, 3);
        if !record_ok(k, machines, m, words::get(rest, at, 2), tag) {
            return None;
        }
        let r = tag::kind(tag);
        if !follows(k, moment, rank, m, r) {
            return None;
        }
        moment = m;
        rank = r;
        tail = at;
        at = words::get(rest, at, 0);
    }
    (at == 0).then_some(tail)
}

// Whether each chain is in order. Its last record, 0 for an empty one, goes into the hints. A count is held against the number of records before its chain is
// walked.
pub fn chains_ok(header: &Header, records: &[u64], hints: &mut [u64; 12]) -> bool
    requires { length records.now ≤ 262140 }
    ensures { Decides (ChainsOk header.now.words.now records.now) result }
{
    let words = header.words;
    let last = (records.len() / 4) as u64;
    for k in 0..CHAINS {
        let chain = Entry::of(words, k);
        if last < chain.count {
            return false;
        }
        let machines = words[8 + k / 6];
        let Some(tail) = chain_ok(records, k as u64, machines, chain) else {
            return false;
        };
        hints[k] = tail;
    }
    true
}

// The records of all chains, taken together.
pub fn counted(header: &Header) -> u64
    requires { (k : ℕ) → k < chain_count → count_of header.now.words.now k ≤ 65535 }
    ensures { result ≡ counts_to header.now.words.now chain_count }
{
    let words = header.words;
    (0..CHAINS).map(|k| Entry::of(words, k).count).sum()
}

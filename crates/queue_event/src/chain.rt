// A chain of records: its first record and how many it has, and the walk along it.
ghost use Rattle.std.specs.Prelude.{◌≡◌, ◌+◌, ◌-◌, ◌*◌, ◌<◌, ◌≤◌, leb, length, get_or};
ghost use Rattle.queue_event.specs.Rows.{Row, Row-prop};
ghost use Rattle.queue_event.specs.Chain.{mark_of, recs};
ghost use Rattle.queue_event.specs.Order.{spot, Sorted};
ghost use Rattle.queue_event.specs.Tail.{last_of, Ends};
ghost use Rattle.queue_event.specs.Folds.{latest_of, any_within};

use crate::read::Record;
use crate::{append, insert, tag};
use moment::{Length, Moment};

// A chain as a header names it: its first record, 0 for none, and how many it has.
#[derive(Clone, Copy)]
pub struct Entry {
    pub head: u64,
    pub count: u64,
}

impl Entry {
    // Of chain k, as the words of a header have it.
    pub fn of(header: &[u64], k: usize) -> Entry
        requires { 26 + 2 * k ≤ length header.now }
        ensures head { result.head ≡ get_or header.now (24 + 2 * k) 0 }
        ensures count { result.count ≡ get_or header.now (25 + 2 * k) 0 }
    {
        Entry {
            head: header[24 + 2 * k],
            count: header[25 + 2 * k],
        }
    }

    // The chain with a record more, which begins with this one.
    pub fn more(self, head: u64) -> Entry
        requires { self.count < 18446744073709551615 }
        ensures head { result.head ≡ head }
        ensures count { result.count ≡ self.count + 1 }
    {
        Entry {
            head,
            count: self.count + 1,
        }
    }

    // The chain with a record less, which begins with this one.
    pub fn less(self, head: u64) -> Entry
        requires { 0 < self.count }
        ensures head { result.head ≡ head }
        ensures count { result.count ≡ self.count - 1 }
    {
        Entry {
            head,
            count: self.count - 1,
        }
    }
}

// What is left of a walk along a chain: its records are linked from its head.
#[derive(Clone, Copy)]
pub struct Linked<'a> {
    pub records: &'a [u64],
    pub chain: Entry,
    pub ghost row: { Row records.now chain.count chain.head } by { Row-prop records.now chain.count chain.head },
}

impl<'a> Linked<'a> {
    ghost use Rattle.queue_event.specs.Walks.{FirstOf};

    // The first of them, if there is one.
    pub fn first(&self) -> Option<Record<'a>>
        ensures { FirstOf self.now.records.now self.now.chain.count self.now.chain.head result }
    {
        if self.chain.count == 0 {
            return None;
        }
        Some(Record {
            records: self.records,
            at: self.chain.head,
        })
    }
}

impl<'a> Iterator for Linked<'a> {
    ghost use Rattle.std.specs.Iterator.{item_count};
    ghost use Rattle.queue_event.specs.Walks.{left, Walked};

    type Item = Record<'a>;

    ghost next_gives = { Walked };

    ghost remaining = { item_count left };

    #[inline(always)]
    fn next(&mut self) -> Option<Record<'a>> {
        let first = self.first()?;
        self.chain = self.chain.less(first.next());
        Some(first)
    }
}

// Where a new record goes: at its place in order, or at the end.
impl<'a> Linked<'a> {
    ghost use Rattle.queue_event.specs.Walks.{left, Finds};

    // The last record that stays before a new one of this moment and tag, if one does.
    pub fn seek(&self, moment: Moment, tag: u64) -> Option<Record<'a>>
        ensures { Finds self.now.records.now (spot (left self.now) 0 moment.0 tag) result }
    {
        self.take_while(|r| insert::stays(r.moment().0, r.tag(), moment.0, tag))
            .last()
    }

    // The same, in a chain that is in order. Where the hint is its last record and stays before the new one, nothing is walked.
    pub fn seek_at(&self, hint: u64, moment: Moment, tag: u64) -> Option<Record<'a>>
        requires ends { Ends self.now.records.now (mark_of tag) self.now.chain.count self.now.chain.head }
        requires sorted { Sorted (left self.now) }
        ensures { Finds self.now.records.now (spot (left self.now) 0 moment.0 tag) result }
    {
        if let Some(end) = append::last_at(self.records, hint, tag::mark(tag)) {
            if insert::stays(end.moment().0, end.tag(), moment.0, tag) {
                return Some(end);
            }
        }
        self.seek(moment, tag)
    }

    // The last record, if there is one.
    pub fn end(&self) -> Option<Record<'a>>
        ensures { Finds self.now.records.now (last_of (left self.now) 0) result }
    {
        (*self).last()
    }

    // The last record of chain k. Where the hint is it, nothing is walked.
    // By `if let` and not `or_else`: of the closure's promise the check knew nothing.
    pub fn end_at(&self, hint: u64, k: u64) -> Option<Record<'a>>
        requires { Ends self.now.records.now k self.now.chain.count self.now.chain.head }
        ensures { Finds self.now.records.now (last_of (left self.now) 0) result }
    {
        if let Some(end) = append::last_at(self.records, hint, k) {
            return Some(end);
        }
        self.end()
    }
}

// All moments at most a margin after one; those before it are among them.
#[derive(Clone, Copy)]
pub struct Reach {
    pub from: Moment,
    pub margin: Length,
}

impl Reach {
    pub fn has(self, moment: Moment) -> bool
        ensures { result ≡ leb (moment.0 - self.from.0) self.margin.0 }
    {
        moment.since(self.from) <= self.margin
    }
}

// What a chain in order holds within reach.
impl Linked<'_> {
    ghost use Rattle.queue_event.specs.Walks.{left};

    // The latest moment within reach, at least tail. What comes after a record out of reach is out of it too.
    // `Sorted` is no fact of the type: free records and stamps are walked by it too, and have no order.
    pub fn latest(&self, reach: Reach, tail: Moment) -> Moment
        requires { Sorted (left self.now) }
        ensures { result.0 ≡ latest_of reach.from.0 reach.margin.0 tail.0 (recs (left self.now)) }
    {
        self.take_while(|r| reach.has(r.moment()))
            .fold(tail, |best, r| best.max(r.moment()))
    }

    // Whether some moment is within reach: its head's is, or none.
    #[tactic(auto, using(crate::proofs::Folds::any_none, crate::proofs::Folds::any_first))]
    pub fn any_within(&self, reach: Reach) -> bool
        requires { Sorted (left self.now) }
        ensures { result ≡ any_within reach.from.0 reach.margin.0 (recs (left self.now)) }
    {
        self.first().is_some_and(|r| reach.has(r.moment()))
    }
}

// A record read as what it holds.
ghost use Rattle.std.specs.Prelude.{◌≡◌, MatchOption};
ghost use Rattle.queue_event.specs.Words.{In, next_of, moment_of, length_of, tag_of};
ghost use Rattle.queue_event.specs.Chain.{rec_at};
ghost use Rattle.queue_event.specs.Tail.{SaysEnd};
ghost use Rattle.queue_event.specs.Values.{read_event, read_aggregate};

use crate::{tag, words};
use event::{AggregateDelay, Kind, SimEvent};
use moment::{Length, Moment};

// One of the records in these words, by its number.
#[derive(Clone, Copy)]
pub struct Record<'a> {
    pub records: &'a [u64],
    pub at: u64,
    pub ghost within: { In records.now at },
}

impl<'a> Record<'a> {
    // The record of this number, where there is one. Any number may be asked of.
    #[inline(always)]
    pub fn numbered(records: &'a [u64], at: u64) -> Option<Record<'a>>
        ensures { MatchOption result (In records.now at → ⊥) (λ r. (r.records.now ≡ records.now) × (r.at ≡ at)) }
    {
        let room = (records.len() / 4) as u64;
        if at == 0 || room < at {
            return None;
        }
        Some(Record { records, at })
    }
}

impl Record<'_> {
    // The number of the record that it is linked to, 0 for none.
    pub fn next(&self) -> u64
        ensures { result ≡ next_of self.now.records.now self.now.at }
    {
        words::get(self.records, self.at, 0)
    }

    pub fn moment(&self) -> Moment
        ensures { result.0 ≡ moment_of self.now.records.now self.now.at }
    {
        Moment(words::get(self.records, self.at, 1))
    }

    pub fn length(&self) -> Length
        ensures { result.0 ≡ length_of self.now.records.now self.now.at }
    {
        Length(words::get(self.records, self.at, 2))
    }

    pub fn tag(&self) -> u64
        ensures { result ≡ tag_of self.now.records.now self.now.at }
    {
        words::get(self.records, self.at, 3)
    }

    // Whether it is one of chain k that nothing follows.
    pub fn ends(&self, k: u64) -> bool
        ensures { SaysEnd self.now.records.now k self.now.at result }
    {
        self.next() == 0 && tag::mark(self.tag()) == k
    }

    // The event that it holds, in a chain of the side.
    pub fn event(&self, client: bool) -> SimEvent
        ensures { result ≡ read_event client (rec_at self.now.records.now self.now.at) }
    {
        let moment = self.moment();
        let delay = self.length();
        let tag = self.tag();
        SimEvent {
            kind: Kind(tag::kind(tag)),
            moment,
            delay,
            client,
            padding: tag::padding(tag),
            bypass: tag::bypass(tag),
            replace: tag::replace(tag),
            machine: tag::machine(tag),
        }
    }

    // The pending aggregate that it holds.
    pub fn aggregate(&self) -> AggregateDelay
        ensures { result ≡ read_aggregate (rec_at self.now.records.now self.now.at) }
    {
        AggregateDelay {
            moment: self.moment(),
            length: self.length(),
            client: tag::client(self.tag()),
        }
    }
}

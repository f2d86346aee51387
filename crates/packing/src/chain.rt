// One chain, written as records in a row.
ghost use Rattle.std.specs.Prelude.{◌≡◌, ◌++◌, ◌+◌, ◌-◌, ◌*◌, ◌≤◌, ◌<◌, length, take};
ghost use Rattle.queue_event.specs.Words.{In};
ghost use Rattle.queue_event.specs.Chain.{recs};
ghost use Rattle.queue_event.specs.Walks.{left};
ghost use Rattle.layout.specs.Packed.{chain_words};
ghost use Rattle.packing.specs.Copying.{link_of, copied};

use queue_event::chain::Linked;
use queue_event::read::Record;
use queue_event::words;

// The link of the record at place, where so many are left from it on: 0 for the last.
pub fn link(left: u64, place: u64) -> u64
    requires fits { place + left < 18446744073709551616 }
    requires some { 1 ≤ left }
    ensures { result ≡ link_of left place }
{
    if left == 1 { 0 } else { place + 1 }
}

// A record, written as record `place` of out with this link.
fn copy_record(from: &Record, out: &mut [u64], place: u64, next: u64)
    requires { In out.old place }
    ensures { out.new ≡ copied from.now.records.now from.now.at out.old place next }
{
    let moment = from.moment();
    let length = from.length();
    let tag = from.tag();
    words::fill(out, place, next, moment.0, length.0, tag);
}

// The records of a chain, written as the records from place on.
pub fn copy_chain(from: &Linked, out: &mut [u64], place: u64)
    requires one { 1 ≤ place }
    requires room { 4 * (place + from.now.chain.count) ≤ length out.old + 4 }
    ensures { take (4 * (place + from.now.chain.count) - 4) out.new
        ≡ take (4 * place - 4) out.old ++ chain_words place (recs (left from.now)) }
{
    let end = place + from.chain.count;
    for (i, r) in from.enumerate() {
        let p = place + i as u64;
        copy_record(&r, out, p, link(end - p, p));
    }
}

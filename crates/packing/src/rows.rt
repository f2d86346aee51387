// All records: the chains in the order of their numbers, then the free ones.
ghost use Rattle.std.specs.Prelude.{◌≡◌, ◌++◌, suc, ◌+◌, ◌-◌, ◌*◌, ◌/◌, ◌≤◌, length, get_or, take};
ghost use Rattle.layout.specs.Packed.{chain_words, used_to, used_words, zero_recs, packed_records};
ghost use Rattle.packing.specs.Writing.{chains_of, Rows};
ghost use Rattle.packing.specs.Heads.{heads_of, counts_of};

use crate::chain;
use queue_event::chain::{Entry, Linked};
use queue_event::words;

// The chains 1 to 11, written from record 1 on. Answers the record after them.
fn write_chains(rest: &[u64], chains: &[Entry; 12], out: &mut [u64]) -> u64
    requires rows { Rows rest.now (heads_of chains.now) (counts_of chains.now) }
    requires counts_in_bounds { 4 * used_to (chains_of rest.now (heads_of chains.now) (counts_of chains.now)) 11 ≤ length out.old }
    ensures value { result ≡ suc (used_to (chains_of rest.now (heads_of chains.now) (counts_of chains.now)) 11) }
    ensures out_after { take (4 * used_to (chains_of rest.now (heads_of chains.now) (counts_of chains.now)) 11) out.new
        ≡ used_words (chains_of rest.now (heads_of chains.now) (counts_of chains.now)) 11 }
{
    let mut place = 1;
    for &chain in &chains[1..] {
        let linked = Linked {
            records: rest,
            chain,
        };
        chain::copy_chain(&linked, out, place);
        place += chain.count;
    }
    place
}

// So many free records, written from place on: each of zeros but for its link.
fn write_free(out: &mut [u64], place: u64, count: u64)
    requires one { 1 ≤ place }
    requires room { 4 * (place + count) ≤ length out.old + 4 }
    ensures { take (4 * (place + count) - 4) out.new ≡ take (4 * place - 4) out.old ++ chain_words place (zero_recs count) }
{
    for i in 0..count {
        let next = chain::link(count - i, place + i);
        words::fill(out, place + i, next, 0, 0, 0);
    }
}

// All records of out, whatever they held: of each chain its count, from its head, and of the free one its count.
pub fn write_records(rest: &[u64], chains: &[Entry; 12], out: &mut [u64])
    requires rows { Rows rest.now (heads_of chains.now) (counts_of chains.now) }
    requires out_len { length out.old
        ≡ 4 * (used_to (chains_of rest.now (heads_of chains.now) (counts_of chains.now)) 11 + get_or (counts_of chains.now) 0 0) }
    ensures { out.new
        ≡ packed_records (chains_of rest.now (heads_of chains.now) (counts_of chains.now)) (length out.old / 4) }
{
    let place = write_chains(rest, chains, out);
    write_free(out, place, chains[0].count);
}

// The header: heads and counts of the packed chains, words without a meaning 0, all others as they were.
ghost use Rattle.std.specs.Prelude.{◌≡◌, ℕ, ◌<◌, ◌≤◌, length, get_or, take};
ghost use Rattle.layout.specs.Records.{head_of, count_of};
ghost use Rattle.layout.specs.Opened.{table};
ghost use Rattle.packing.specs.Heads.{sum_to, first_for, start_of, header_from, heads_of, counts_of};

use layout::HEADER_WORDS;
use queue_event::chain::Entry;
use std::array;

// The twelve chains of a header.
pub fn read_chains(head: &[u64; 256]) -> [Entry; 12]
    ensures heads { (k : ℕ) → k < 12 → get_or (heads_of result) k 0 ≡ head_of head.now k }
    ensures counts { (k : ℕ) → k < 12 → get_or (counts_of result) k 0 ≡ count_of head.now k }
{
    array::from_fn(|k| Entry::of(head, k))
}

// The head of a chain that is written from place on: 0 where it has no record.
fn first(place: u64, count: u64) -> u64
    ensures { result ≡ first_for place count }
{
    if count == 0 { 0 } else { place }
}

// The chains as they are packed: 1 to 11 from record 1 on, then the free one.
pub fn start_chains(chains: &[Entry; 12]) -> [Entry; 12]
    requires { sum_to (counts_of chains.now) 11 ≤ 65535 }
    ensures heads { (k : ℕ) → k < 12 → get_or (heads_of result) k 0 ≡ start_of (counts_of chains.now) k }
    ensures counts { counts_of result ≡ counts_of chains.now }
{
    let mut packed = *chains;
    let mut place = 1;
    // by number: with packed[1..].iter_mut() four goals stayed open, among them that of the heads on return
    for k in 1..12 {
        packed[k].head = first(place, chains[k].count);
        place += chains[k].count;
    }
    packed[0].head = first(place, chains[0].count);
    packed
}

// Word i of a header, with these chains in the place of its own, and 0 for a word without a meaning.
#[tactic(auto, unfolding(layout::specs::Spare::spare, layout::specs::Packed::header_word))]
fn header_word(head: &[u64; 256], chains: &[Entry; 12], i: usize) -> u64
    requires { i < 256 }
    ensures { result ≡ header_from head.now (heads_of chains.now) (counts_of chains.now) i }
{
    // A match tests from the lowest on, and most words are above these.
    if i >= 64 {
        return if i < 192 { head[i] } else { 0 };
    }
    match i {
        0..=17 => head[i],
        24..=47 if i % 2 == 0 => chains[(i - 24) / 2].head,
        24..=47 => chains[(i - 24) / 2].count,
        _ => 0,
    }
}

// The header of out, whatever it held: that of head, with these chains.
pub fn write_header(head: &[u64; 256], chains: &[Entry; 12], out: &mut [u64])
    requires { 256 ≤ length out.old }
    ensures { take 256 out.new ≡ table 256 (header_from head.now (heads_of chains.now) (counts_of chains.now)) }
{
    for i in 0..HEADER_WORDS {
        out[i] = header_word(head, chains, i);
    }
}

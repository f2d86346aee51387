// The packed form of a state, written into a second block.
#![tactic(auto)]

ghost use Rattle.std.specs.Prelude.{◌≡◌, length};
ghost use Rattle.layout.specs.Accepted.{Accepted};
ghost use Rattle.layout.specs.Packed.{packed_words};

pub mod chain;
pub mod header;
pub mod rows;

use layout::HEADER_WORDS;

// The packed form of an accepted block, written into another of its length, whatever that held.
pub fn pack(block: &[u64], out: &mut [u64])
    requires accepted { Accepted block.now }
    requires long { length out.old ≡ length block.now }
    ensures { out.new ≡ packed_words block.now }
{
    let (head, rest) = block.split_first_chunk::<HEADER_WORDS>().unwrap();
    let chains = header::read_chains(head);
    let packed = header::start_chains(&chains);
    header::write_header(head, &packed, out);
    rows::write_records(rest, &chains, &mut out[HEADER_WORDS..]);
}

// The test of the lent words: which are an accepted state.
#![tactic(auto)]

ghost use Rattle.std.specs.Prelude.{◌≡◌, ◌≤◌, length};
ghost use Rattle.layout.specs.Decides.{Decides};
ghost use Rattle.layout.specs.Accepted.{SizeOk, Good, Accepted};

pub mod header;
pub mod records;

use header::Header;
use layout::HEADER_WORDS;

// Whether n is 256 + 4R, R from 1 to 65,535.
pub fn size_ok(n: usize) -> bool
    ensures { Decides (SizeOk n) result }
{
    (260..=262_396).contains(&n) && n % 4 == 0
}

// Whether a header and the records after it are in order, each for itself and together.
#[tactic(auto, unfolding(crate::specs::Slots::FoundAll))]
fn good(head: &Header, rest: &[u64], hints: &mut [u64; 12]) -> bool
    requires { length rest.now ≤ 262140 }
    ensures { Decides (Good head.now.words.now rest.now) result }
{
    if !head.limited() {
        return false;
    }
    let Some(reserve) = head.test_slots() else {
        return false;
    };
    if !records::chains_ok(head, rest, hints) {
        return false;
    }
    let last = (rest.len() / 4) as u64;
    if records::counted(head) != last {
        return false;
    }
    last - head.words[25] + reserve <= last
}

// Whether the lent words are an accepted state. Where they are, the walk of the chains leaves the last record of each in the hints, 0 for an empty one. These are
// hints and nothing is promised of them: the push that follows then need not walk the chain again.
pub fn accepted_with(block: &[u64], hints: &mut [u64; 12]) -> bool
    ensures { Decides (Accepted block.now) result }
{
    if !size_ok(block.len()) {
        return false;
    }
    let (words, rest) = block.split_first_chunk::<HEADER_WORDS>().unwrap();
    good(&Header { words }, rest, hints)
}

// Whether the lent words are an accepted state.
pub fn accepted(block: &[u64]) -> bool
    ensures { Decides (Accepted block.now) result }
{
    accepted_with(block, &mut [0; 12])
}

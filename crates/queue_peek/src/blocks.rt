// The blocks of both sides: the next one to end.
ghost use Rattle.std.specs.Prelude.{◌≡◌, ℕ, List};
ghost use Rattle.rules.specs.ChoiceDelays.{next_block};
ghost use Rattle.rules.specs.ChoiceRound.{end_moment};
ghost use Rattle.event.specs.HandedIn.{side_of};
ghost use Rattle.layout.specs.Layout.{state_from};
ghost use Rattle.queue.specs.Heads.{side_held};
ghost use Rattle.queue_peek.specs.Decoded.{block_from, blocked_of, block_of};

use moment::Moment;
use queue::Words;

// The end of a block: its side, and when.
#[derive(Clone, Copy)]
pub struct BlockEnd {
    pub client: bool,
    pub end: Moment,
}

impl BlockEnd {
    // When a round at a time ends it: not before that time.
    pub fn end_moment(self, time: Moment) -> Moment
        ensures { result.0 ≡ end_moment time.0 (block_from self) }
    {
        self.end.max(time)
    }
}

// The end of a side's block, if it has one.
#[tactic(auto, using(crate::proofs::BlockLaws::side_none, crate::proofs::BlockLaws::side_some))]
fn of_side(words: &Words, client: bool) -> Option<BlockEnd>
    ensures { (rs : List ℕ) → blocked_of result ≡ block_of (side_of client) (side_held words.now.header.now rs client).block_end }
{
    words.block_end(client).map(|end| BlockEnd { client, end })
}

// The earlier block end; equal ends mean the server.
pub fn next_block(words: &Words) -> Option<BlockEnd>
    ensures { (rs : List ℕ) → blocked_of result ≡ next_block (state_from words.now.header.now rs) }
{
    let client = of_side(words, true);
    let server = of_side(words, false);
    match (client, server) {
        (Some(c), Some(s)) => if c.end < s.end { client } else { server },
        _ => client.or(server),
    }
}

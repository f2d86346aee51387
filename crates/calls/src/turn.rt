// A turn: a choice, then the network step on the event that it gave, and whether the list ends there.
ghost use Rattle.std.specs.Prelude.{◌≡◌, ◌+◌, ◌<◌, ◌≤◌, ◌∷◌, ◌++◌};
ghost use Rattle.event.specs.Answers.{choice_of, step_of};
ghost use Rattle.layout.specs.Accepted.{Accepted};
ghost use Rattle.calls.specs.Rows.{turn_words};
ghost use Rattle.calls.specs.Rows.{bit as bit_of};
ghost use Rattle.calls.specs.Made.{TurnMade, ends_with, last_with};

use crate::{row, told, written};
use event::answer::{Choice, Step};
use moment::Moment;

// Where a choice's answer has them: 1 for an event, its kind, its moment, its side.
// Read back from the answer's words: the definitions (`ends_with`, `last_with`) speak of these, as docs/ does of the list call.
const CHOSEN: usize = 1;

const KIND: usize = 3;

const MOMENT: usize = 4;

const SIDE: usize = 6;

// The kinds that are watched stand one a bit, the server's sixteen bits above the client's.
const SERVER: u64 = 65_536;

// The answer of a turn with a step.
fn turn_row(a: Choice, b: Step) -> [u64; 16]
    ensures { result ≡ turn_words (choice_of a) (step_of b) }
{
    let n = told::number(b);
    let w = written::choice_words(a);
    let s = written::step_words(b);
    [
        n, w[0], w[1], w[2], w[3], w[4], w[5], w[6], w[7], w[8], w[9], s[0], s[1], s[2], 0, 0,
    ]
}

// A choice at the time, then its event's step, at the event's own moment.
pub fn turn(block: &mut [u64], hints: &mut [u64; 12], time: Moment) -> [u64; 16]
    requires { Accepted block.old }
    ensures { TurnMade block.old time.0 result block.new }
{
    let a = simulator::choice::pick_next_on(block, hints, time);
    let Ok(c) = a else {
        return row::choice_row(a);
    };
    let Some(e) = c.event else {
        return row::choice_row(a);
    };
    let b = simulator::step::sim_network_stack_on(block, hints, e, e.moment);
    turn_row(a, b)
}

// Bit k of n.
fn bit(n: u64, k: u64) -> bool
    ensures { result ≡ bit_of n k }
{
    k < 64 && (n >> k) % 2 == 1
}

// Whether the list ends after a turn of this answer: it is refused, gives no event, or one that is watched.
pub fn ends(words: [u64; 16], stop: u64) -> bool
    ensures { result ≡ ends_with words stop }
{
    if words[0] != 0 {
        return true;
    }
    if words[CHOSEN] == 0 {
        return true;
    }
    let kind = words[KIND];
    if words[SIDE] == 0 {
        return bit(stop / SERVER, kind);
    }
    bit(stop, kind)
}

// The moment of the last event chosen, after a choice or a turn of this answer.
pub fn last(words: [u64; 16], before: u64) -> u64
    ensures { result ≡ last_with words before }
{
    if words[CHOSEN] == 0 {
        return before;
    }
    words[MOMENT]
}

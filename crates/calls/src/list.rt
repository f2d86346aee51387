// A list of calls on a lent block: the words are tested once, and the rows are made one by one.
ghost use Rattle.std.specs.Prelude.{ℕ, List, ◌≡◌, ◌+◌, ◌*◌, ◌≤◌, ◌++◌, length, take, drop};
ghost use Rattle.simulator.specs.Numbers.{refused_with, Lent};
ghost use Rattle.calls.specs.Codes.{IsRow};
ghost use Rattle.calls.specs.Listed.{RowMade, Listed};

use crate::row::{Code, Row};
use crate::{row, turn, written};
use event::answer::Reason;
use moment::Moment;

// A row, on words that were tested, with what the test found. `last` is the moment of the last event chosen.
fn make_row(
    block: &mut [u64],
    hints: &mut [u64; 12],
    row: &Row<'_>,
    tested: Result<(), Reason>,
    last: u64,
) -> [u64; 16]
    requires { Lent block.old (refused_with tested) }
    ensures { (rows : List ℕ) (at : ℕ) → IsRow rows at row.now.words.now → RowMade block.old rows at last result block.new }
{
    if let Err(reason) = tested {
        return row::number_words(reason.number());
    }
    match row.code {
        Code::Call(code) => row.call(code, block, hints),
        Code::Turn => turn::turn(block, hints, row.time().max(Moment(last))),
    }
}

// The answer of row `at` is written.
fn store(out: &mut [u64], at: usize, words: [u64; 16])
    requires { 16 * at + 16 ≤ length out.old }
    ensures { out.new ≡ take (16 * at) out.old ++ (words ++ drop (16 * at + 16) out.old) }
{
    let i = 16 * at;
    let j = i + 16;
    written::write(&mut out[i..j], &words);
}

// The rows, one by one. Answers how many were made.
// By the number of the row: the promise speaks of row `at` and of the words that are its answer's place.
fn make_rows(
    block: &mut [u64],
    hints: &mut [u64; 12],
    rows: &[u64],
    out: &mut [u64],
    tested: Result<(), Reason>,
) -> u64
    requires { Lent block.old (refused_with tested) }
    ensures { Listed block.old rows.now out.old result block.new out.new }
{
    let most = (rows.len() / 12).min(out.len() / 16);
    let (whole, _) = rows.as_chunks::<12>();
    let mut last = 0;
    for at in 0..most {
        let Some(row) = Row::read(&whole[at]) else {
            return at as u64;
        };
        let words = make_row(block, hints, &row, tested, last);
        store(out, at, words);
        if row.ends(words) {
            return (at + 1) as u64;
        }
        last = row.last_after(words, last);
    }
    most as u64
}

// A list of calls. Answers how many rows were made.
pub fn calls(block: &mut [u64], rows: &[u64], out: &mut [u64]) -> u64
    ensures { Listed block.old rows.now out.old result block.new out.new }
{
    let mut hints = [0; 12];
    let tested = simulator::admit::lent(block, &mut hints);
    make_rows(block, &mut hints, rows, out, tested)
}

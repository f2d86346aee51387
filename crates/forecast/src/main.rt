// Reads call lists from standard input and writes the answer of each call (docs/CALLS.md).
#![tactic(auto)]

ghost use Rattle.std.specs.Prelude.{◌≤◌, length};

use call_list::session::Session;
use std::io::{Input, Read, StdinLock};

// Reads a piece; 0 where the input has ended or a read fails.
fn read_piece(stdin: &mut StdinLock, input: &mut [u8]) -> usize
    ensures { result ≤ length input.new }
{
    stdin.read(input).unwrap_or(0)
}

// All of the input, in more pieces than any run can read. A last line needs no newline.
// A range and no `loop`: the program has to end.
fn run(stdin: &mut StdinLock, input: &mut [u8], session: &mut Session<'_>) {
    for _ in 0..u64::MAX {
        let n = read_piece(stdin, input);
        if n == 0 {
            break;
        }
        session.scan(&input[..n]);
    }
    session.scan(b"\n");
    session.flush();
}

fn main(rt: HostRuntime) {
    let mut stdin = rt.reader();
    let mut state = [0u64; 8192];
    let mut second = [0u64; 8192];
    let mut input = io::large_buffer();
    let mut out = io::large_buffer();
    let mut session = Session::new(&mut state, &mut second, &mut out);
    run(&mut stdin, &mut input, &mut session);
}

// A list of calls that is being answered: it is read byte by byte, and each line is answered where it ends.
ghost use Rattle.std.specs.Prelude.{◌≡◌, true, false, length};
ghost use Rattle.call_line.specs.Held.{start_line};
ghost use Rattle.call_list.specs.Asking.{leaves_first};
ghost use Rattle.call_list.specs.Lent.{at_most};
ghost use Rattle.call_list.specs.Session.{first_words, second_words, first_lent, second_lent, is_known, line_of, line_number, waiting, Holds, HoldsThose};

use crate::second::Second;
use crate::state::State;
use answer_text::answers;
use answer_text::text::Output;
use call_line::line::{Line, Words};
use call_words::asked::{Asked, BadLine, Call};
use call_words::names::Block;
use event::ScheduledAction;
use simulator::slots::Timer;

// What is kept from byte to byte.
#[derive(Drop)]
pub struct Session<'a> {
    state: State<'a>,
    second: Second<'a>,
    out: Output<'a>,
    // the line under way: its number, counted from 1, and what is known of it
    number: u64,
    line: Line,
    words: Words,
}

impl<'a> Session<'a> {
    // At the start of a list, on these two blocks. Answers wait in `out`.
    pub fn new(state: &'a mut [u64], second: &'a mut [u64], out: &'a mut [u8]) -> Session<'a>
        ensures known { is_known result ≡ false }
        ensures used { waiting result ≡ 0 }
        ensures line { (line_of result ≡ start_line) × (line_number result ≡ 1) }
        ensures words { (first_words result ≡ state.entry.now) × (second_words result ≡ second.entry.now) }
        ensures lent { (first_lent result ≡ at_most 8192 (length state.entry.now)) × (second_lent result ≡ at_most 8192 (length second.entry.now)) }
        ensures same_references { Holds result state.entry second.entry out.entry }
    {
        Session {
            state: State::new(state),
            second: Second::new(second),
            out: Output::new(out),
            number: 1,
            line: Line::start(),
            words: Words::new(),
        }
    }

    // One piece of the list.
    pub fn scan(&mut self, input: &[u8])
        ensures same_references { HoldsThose self.new self.old }
    {
        let mut line = self.line;
        for b in input {
            if line.is_digit(*b) {
                line.read_digit(*b);
            } else if *b == b'\n' {
                self.end(line);
                line = Line::start();
            } else {
                line.read(*b, &mut self.words);
            }
        }
        self.line = line;
    }

    // The answers that wait are written.
    pub fn flush(&mut self)
        ensures used { waiting self.new ≡ 0 }
        ensures words { (first_words self.new ≡ first_words self.old) × (second_words self.new ≡ second_words self.old) }
        ensures same_references { HoldsThose self.new self.old }
    {
        self.out.flush();
    }

    // The line ends here.
    fn end(&mut self, line: Line)
        ensures same_references { HoldsThose self.new self.old }
    {
        match line.asked(&mut self.words) {
            Ok(None) => {},
            Ok(Some(asked)) => self.answered(asked),
            Err(BadLine) => answers::bad_line(&mut self.out, self.number),
        }
        self.number = self.number.saturating_add(1);
    }

    // What a line asked for is done, and its answer put. A line that lists, or is about the second block alone, leaves the first block.
    fn answered(&mut self, asked: Asked)
        ensures leaves { leaves_first asked ≡ true → first_words self.new ≡ first_words self.old }
        ensures same_references { HoldsThose self.new self.old }
    {
        let answer = match asked {
            Asked::Make(call) => return self.made(call),
            Asked::Show => return self.state.show(&mut self.out),
            Asked::Words(Block::First) => return self.state.list(&mut self.out),
            Asked::Words(Block::Second) => return self.second.list(&mut self.out),
            Asked::Open(o) => self.state.open(o),
            Asked::Lend(Block::First, n) => {
                self.state.lend(n);
                Ok(())
            },
            Asked::Lend(Block::Second, n) => {
                self.second.lend(n);
                Ok(())
            },
            Asked::Word(Block::First, i, v) => {
                self.state.write(i, v);
                Ok(())
            },
            Asked::Word(Block::Second, i, v) => {
                self.second.write(i, v);
                Ok(())
            },
            Asked::TakeSecond => {
                self.state.take_second(&self.second);
                Ok(())
            },
            Asked::Pack => self.second.pack(&self.state),
        };
        answers::told(&mut self.out, answer);
    }

    // A call on the state.
    fn made(&mut self, call: Call)
        ensures same_references { HoldsThose self.new self.old }
    {
        let answer = match call {
            Call::Push(e) => self.state.push(e),
            Call::SetAction(slot, action) => self.state.set(slot, action),
            Call::ClearAction(slot) => self.state.clear::<ScheduledAction>(slot),
            Call::SetTimer(slot, moment) => self.state.set(slot, Timer(moment)),
            Call::ClearTimer(slot) => self.state.clear::<Timer>(slot),
            Call::PickNext(time) => {
                let choice = self.state.pick_next(time);
                return answers::told_choice(&mut self.out, choice);
            },
            Call::SimNetworkStack(time, e) => {
                let step = self.state.sim_network_stack(time, e);
                return answers::told_step(&mut self.out, step);
            },
        };
        answers::told(&mut self.out, answer);
    }
}

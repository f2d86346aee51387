// The second block, which packing writes. `State` has words of its own and not this struct: the borrow checker does not cover what lies in a struct with a ghost
// field that lies in another.
ghost use Rattle.std.specs.Prelude.{◌≡◌, ◌≤◌, length, slice_set};
ghost use Rattle.event.specs.Answers.{answer_of};
ghost use Rattle.call_list.specs.Lent.{PacksLent, at_most};

use crate::state;
use crate::state::State;
use answer_text::lists;
use answer_text::text::Output;
use event::answer::Answer;

#[derive(Drop)]
pub struct Second<'a> {
    pub words: &'a mut [u64],
    // as many are lent
    pub lent: usize,
    pub ghost within: { lent ≤ length words.now },
}

impl<'a> Second<'a> {
    // At the start of a list.
    pub fn new(words: &'a mut [u64]) -> Second<'a>
        ensures words { result.words.now ≡ words.entry.now }
        ensures lent { result.lent ≡ at_most 8192 (length words.entry.now) }
        ensures same_reference { result.words.ghost_name ≡ words.entry.ghost_name }
    {
        let lent = state::at_most(state::LENT, words.len());
        Second { words, lent }
    }

    // The first n words are lent, or all there are.
    pub fn lend(&mut self, n: u64)
        ensures lent { self.new.lent ≡ at_most n (length self.old.words.now) }
        ensures words { self.new.words.now ≡ self.old.words.now }
        ensures same_reference { self.new.words.ghost_name ≡ self.old.words.ghost_name }
    {
        self.lent = state::at_most(n, self.words.len());
    }

    // Word i becomes v, where there is one.
    pub fn write(&mut self, i: u64, v: u64)
        ensures words { self.new.words.now ≡ slice_set self.old.words.now i v }
        ensures lent { self.new.lent ≡ self.old.lent }
        ensures same_reference { self.new.words.ghost_name ≡ self.old.words.ghost_name }
    {
        state::set_word(self.words, i, v);
    }

    // The lent words are put. Of what is printed no contract can speak, and `&self` says that the rest stays.
    pub fn list(&self, out: &mut Output<'_>)
        ensures same_reference { out.new.buffer.ghost_name ≡ out.old.buffer.ghost_name }
    {
        lists::words(out, &self.words[..self.lent]);
    }

    // The lent words of the first block, packed.
    pub fn pack(&mut self, state: &State<'_>) -> Answer
        ensures packs { PacksLent state.now.lent state.now.words.now self.old.lent self.old.words.now (answer_of result) self.new.words.now }
        ensures lent { self.new.lent ≡ self.old.lent }
        ensures same_reference { self.new.words.ghost_name ≡ self.old.words.ghost_name }
    {
        simulator::pack::pack(&state.words[..state.lent], &mut self.words[..self.lent])
    }
}

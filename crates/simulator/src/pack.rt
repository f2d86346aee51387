// Packing a state.
ghost use Rattle.event.specs.Answers.{answer_of};
ghost use Rattle.simulator.specs.Packs.{Packs};

use event::answer::{Answer, Reason};

// Writes the packed form of the state in the lent words into a second block, whatever that held. An ended state packs too.
pub fn pack(block: &[u64], second: &mut [u64]) -> Answer
    ensures { Packs block.now second.old (answer_of result) second.new }
{
    if !accept::size_ok(block.len()) || second.len() != block.len() {
        return Err(Reason::WrongLength.into());
    }
    if !accept::accepted(block) {
        return Err(Reason::NotAccepted.into());
    }
    packing::pack(block, second);
    Ok(())
}

// The words of the header that a round writes.
// Between two stores of a call the words are `Shaped` and not yet `Accepted`, so no type of the block could hold either throughout.
ghost use Rattle.std.specs.Prelude.{◌≡◌, true, ◌+◌, ◌^◌, ◌<◌};
ghost use Rattle.rules.specs.State.{side, with_ended, total};
ghost use Rattle.rules.specs.ChoiceRound.{timer_cleared, action_cleared, counted};
ghost use Rattle.event.specs.HandedIn.{side_of};
ghost use Rattle.layout.specs.Layout.{state_of};
ghost use Rattle.layout.specs.Shape.{Shaped};
ghost use Rattle.round.specs.Changes.{Becomes, raised_by, unblocked, blocked_to, bit_of};
ghost use Rattle.layout.specs.Changes.{side_no};
ghost use Rattle.candidate.specs.Candidates.{slot_from};

use moment::{Length, Moment};
use queue::header::Slot;
use queue::{header, records};

// A length is added to a side's sum.
pub fn raise_sum(block: &mut [u64], client: bool, length: Length)
    requires shaped { Shaped block.old }
    requires sum_small { (side (state_of block.old) (side_of client)).sum + length.0 < 2 ^ 64 }
    ensures { Becomes block.old block.new (raised_by (state_of block.old) (side_of client) length.0) }
{
    let at = header::place(header::SUM, client);
    let sum = Length(block[at]).plus(length);
    block[at] = sum.0;
}

// A side's block is cleared; its bypassable flag stays.
pub fn clear_block(block: &mut [u64], client: bool)
    requires { Shaped block.old }
    ensures { Becomes block.old block.new (unblocked (state_of block.old) (side_of client)) }
{
    let at = header::place(header::BLOCK, client);
    block[at] = 0;
}

// A side is blocked until a moment.
pub fn set_block(block: &mut [u64], client: bool, end: Moment, bypass: bool)
    requires shaped { Shaped block.old }
    requires end_small { end.0 + 1 < 2 ^ 64 }
    ensures { Becomes block.old block.new (blocked_to (state_of block.old) (side_of client) end.0 bypass) }
{
    let until = header::place(header::BLOCK, client);
    let flag = header::place(header::BYPASSABLE, client);
    block[until] = end.stored();
    block[flag] = u64::from(bypass);
}

// A timer, and an action, is cleared.
pub fn clear_timer(block: &mut [u64], slot: Slot)
    requires { Shaped block.old }
    ensures { Becomes block.old block.new (timer_cleared (state_of block.old) (slot_from slot)) }
{
    records::clear_timer(block, slot);
}

pub fn clear_action(block: &mut [u64], slot: Slot)
    requires { Shaped block.old }
    ensures { Becomes block.old block.new (action_cleared (state_of block.old) (slot_from slot)) }
{
    records::clear_action(block, slot);
}

// Number 10 marks the state ended.
pub fn mark_ended(block: &mut [u64])
    requires { Shaped block.old }
    ensures { Becomes block.old block.new (with_ended (state_of block.old) true) }
{
    block[header::ENDED] = 1;
}

// One round more.
pub fn count_round(block: &mut [u64])
    requires shaped { Shaped block.old }
    requires total_small { total (state_of block.old) + 1 < 2 ^ 64 }
    ensures { Becomes block.old block.new (counted (state_of block.old)) }
{
    block[header::ROUNDS] = block[header::ROUNDS] + 1;
}

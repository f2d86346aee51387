// The head of a chain goes to the free chain.
ghost use Rattle.std.specs.Prelude.{◌≡◌};
ghost use Rattle.queue_event.specs.Words.{tag_of, In};
ghost use Rattle.queue_event.specs.Chain.{mark_of};
ghost use Rattle.queue_event.specs.Frame.{Popped};

use crate::words;

// The record at head leaves its chain and goes in front of the free chain. Answers the record that followed it.
pub fn pop(records: &mut [u64], head: u64, free: u64) -> u64
    requires within { In records.old head }
    requires used { (mark_of (tag_of records.old head) ≡ 0 → ⊥) }
    ensures { Popped records.old records.new head free result }
{
    let next = words::get(records, head, 0);
    words::store(records, head, 0, free);
    words::store(records, head, 3, 0);
    next
}

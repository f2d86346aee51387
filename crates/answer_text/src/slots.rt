// The machines' timers and actions that `show` lists: each one held, the client's first, by machine.
ghost use Rattle.std.specs.Prelude.{◌≡◌};

use crate::text::{Output, flag, side};
use event::ScheduledAction;
use queue::Words;
use queue::header::Slot;

// The timers of a side.
fn put_side_timers(out: &mut Output<'_>, words: &Words, client: bool)
    ensures same_reference { out.new.buffer.ghost_name ≡ out.old.buffer.ghost_name }
{
    for machine in 0..16 {
        if let Some(t) = words.timer(Slot { client, machine }) {
            out.put(b"timer ");
            out.put(&[side(client)]);
            out.next(machine);
            out.next(t.0);
            out.put(b"\n");
        }
    }
}

pub(crate) fn put_timers(out: &mut Output<'_>, words: &Words)
    ensures same_reference { out.new.buffer.ghost_name ≡ out.old.buffer.ghost_name }
{
    put_side_timers(out, words, true);
    put_side_timers(out, words, false);
}

// An action's kind, moment, duration, bypass and replace.
fn put_action(out: &mut Output<'_>, a: ScheduledAction)
    ensures same_reference { out.new.buffer.ghost_name ≡ out.old.buffer.ghost_name }
{
    out.next(a.kind.0);
    out.next(a.moment.0);
    out.next(a.duration.0);
    out.put(&[b' ', flag(a.bypass), b' ', flag(a.replace)]);
}

// The actions of a side.
fn put_side_actions(out: &mut Output<'_>, words: &Words, client: bool)
    ensures same_reference { out.new.buffer.ghost_name ≡ out.old.buffer.ghost_name }
{
    for machine in 0..16 {
        if let Some(a) = words.action(Slot { client, machine }) {
            out.put(b"action ");
            out.put(&[side(client)]);
            out.next(machine);
            put_action(out, a);
            out.put(b"\n");
        }
    }
}

pub(crate) fn put_actions(out: &mut Output<'_>, words: &Words)
    ensures same_reference { out.new.buffer.ghost_name ≡ out.old.buffer.ghost_name }
{
    put_side_actions(out, words, true);
    put_side_actions(out, words, false);
}

// The answer of a call, as text: a line each.
ghost use Rattle.std.specs.Prelude.{◌≡◌};

use crate::text::{OrDash, Output, flag, side};
use event::SimEvent;
use event::answer::{Answer, Choice, Refusal, Step};
use std::fmt;

// The event's eight words.
// By `put` and `next`, here, in `show` and in `words`, and not by `Display`: a line of these took twice the time through a formatter (docs/DESIGN-PASS.md).
pub(crate) fn put_event(out: &mut Output<'_>, e: SimEvent)
    ensures same_reference { out.new.buffer.ghost_name ≡ out.old.buffer.ghost_name }
{
    out.next(e.kind.0);
    out.next(e.moment.0);
    out.next(e.delay.0);
    let (padding, bypass, replace) = (flag(e.padding), flag(e.bypass), flag(e.replace));
    out.put(&[
        b' ',
        side(e.client),
        b' ',
        padding,
        b' ',
        bypass,
        b' ',
        replace,
    ]);
    out.next(e.machine);
}

#[derive(Clone, Copy)]
struct Refused(Refusal);

impl fmt::Display for Refused {
    fn fmt<W: fmt::Write>(&self, f: &mut fmt::Formatter<W>) -> fmt::Result {
        write!(f, "refused {} {}", self.0.reason.number(), self.0.rounds)
    }
}

// The three that follow share the line of a refusal; one function of them would need three wrappers that print.
pub fn told(out: &mut Output<'_>, a: Answer)
    ensures same_reference { out.new.buffer.ghost_name ≡ out.old.buffer.ghost_name }
{
    match a {
        Ok(()) => writeln!(out, "ok"),
        Err(r) => writeln!(out, "{}", Refused(r)),
    }
}

// When the packet count falls, or `-`.
pub fn told_step(out: &mut Output<'_>, a: Step)
    ensures same_reference { out.new.buffer.ghost_name ≡ out.old.buffer.ghost_name }
{
    match a {
        Ok(s) => {
            let activity = if s.active { "yes" } else { "no" };
            writeln!(out, "{activity} falls {}", OrDash(s.falls.map(|t| t.0)))
        },
        Err(r) => writeln!(out, "{}", Refused(r)),
    }
}

pub fn told_choice(out: &mut Output<'_>, a: Choice)
    ensures same_reference { out.new.buffer.ghost_name ≡ out.old.buffer.ghost_name }
{
    match a {
        Ok(c) => match c.event {
            Some(e) => {
                out.put(b"event");
                put_event(out, e);
                out.put(b" rounds");
                out.next(c.rounds);
                out.put(b"\n");
            },
            None => writeln!(out, "nothing rounds {}", c.rounds),
        },
        Err(r) => writeln!(out, "{}", Refused(r)),
    }
}

pub fn bad_line(out: &mut Output<'_>, line_number: u64)
    ensures same_reference { out.new.buffer.ghost_name ≡ out.old.buffer.ghost_name }
{
    out.put(b"bad line");
    out.next(line_number);
    out.put(b"\n");
}

// The chains that `show` lists: queued events, stamps and aggregates, each chain from its head.
ghost use Rattle.std.specs.Prelude.{◌≡◌};

use crate::answers;
use crate::text::{Output, side};
use queue::{Queue, View, header};

// The events of a side, queue by queue.
fn put_events(out: &mut Output<'_>, view: &View, client: bool)
    ensures same_reference { out.new.buffer.ghost_name ≡ out.old.buffer.ghost_name }
{
    for (of, name) in [
        (Queue::Base, &b"event base"[..]),
        (Queue::Blocking, b"event blocking"),
        (Queue::Bypassable, b"event bypassable"),
        (Queue::Internal, b"event internal"),
    ] {
        for r in view.chain(of.chain(client)) {
            out.put(name);
            answers::put_event(out, r.event(client));
            out.put(b"\n");
        }
    }
}

fn put_stamps(out: &mut Output<'_>, view: &View, client: bool)
    ensures same_reference { out.new.buffer.ghost_name ≡ out.old.buffer.ghost_name }
{
    for r in view.chain(header::stamps(client)) {
        out.put(b"stamp ");
        out.put(&[side(client)]);
        out.next(r.moment().0);
        out.put(b"\n");
    }
}

// The client's events, the server's, both stamps, the aggregates.
pub(crate) fn put_chains(out: &mut Output<'_>, view: &View)
    ensures same_reference { out.new.buffer.ghost_name ≡ out.old.buffer.ghost_name }
{
    put_events(out, view, true);
    put_events(out, view, false);
    put_stamps(out, view, true);
    put_stamps(out, view, false);
    for r in view.chain(header::AGGREGATES) {
        let a = r.aggregate();
        out.put(b"aggregate ");
        out.put(&[side(a.client)]);
        out.next(a.moment.0);
        out.next(a.length.0);
        out.put(b"\n");
    }
}

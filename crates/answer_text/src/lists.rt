// What `show` and `words` list, read from the lent words (docs/LAYOUT.md).
ghost use Rattle.std.specs.Prelude.{◌≡◌};

use crate::text::Output;
use crate::{chains, header, slots};
use queue::View;

fn put_state(out: &mut Output<'_>, view: &View)
    ensures same_reference { out.new.buffer.ghost_name ≡ out.old.buffer.ghost_name }
{
    header::put_header(out, &view.words);
    slots::put_timers(out, &view.words);
    slots::put_actions(out, &view.words);
    chains::put_chains(out, view);
}

// The state that the lent words are.
pub fn show(out: &mut Output<'_>, block: &[u64])
    ensures same_reference { out.new.buffer.ghost_name ≡ out.old.buffer.ghost_name }
{
    if accept::accepted(block) {
        put_state(out, &View::of(block));
    } else {
        out.put(b"not accepted\n");
    }
    out.put(b"end\n");
}

// The lent words, one a line.
pub fn words(out: &mut Output<'_>, block: &[u64])
    ensures same_reference { out.new.buffer.ghost_name ≡ out.old.buffer.ghost_name }
{
    for word in block {
        out.number(*word);
        out.put(b"\n");
    }
    out.put(b"end\n");
}

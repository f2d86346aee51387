// The words of the header that `show` lists (docs/LAYOUT.md).
ghost use Rattle.std.specs.Prelude.{◌≡◌};

use crate::text::{Output, flag, side};
use queue::{Words, header};

// A rate: 0 for none.
fn rate(word: u64) -> Option<u64> {
    (word != 0).then_some(word)
}

// A line of a name and a number.
fn put_line(out: &mut Output<'_>, name: &[u8], n: u64)
    ensures same_reference { out.new.buffer.ghost_name ≡ out.old.buffer.ghost_name }
{
    out.put(name);
    out.next(n);
    out.put(b"\n");
}

fn put_settings(out: &mut Output<'_>, words: &Words)
    ensures same_reference { out.new.buffer.ghost_name ≡ out.old.buffer.ghost_name }
{
    let header = words.header;
    out.put(b"settings");
    out.next(header[header::NETWORK_DELAY]);
    out.next_or_dash(rate(header[1]));
    out.next_or_dash(rate(header[2]));
    for word in &header[header::WINDOW..header::SUM] {
        out.next(*word);
    }
    out.put(b"\n");
}

// The block end and the flag of a side.
fn put_block(out: &mut Output<'_>, words: &Words, client: bool)
    ensures same_reference { out.new.buffer.ghost_name ≡ out.old.buffer.ghost_name }
{
    out.put(b"block ");
    out.put(&[side(client)]);
    out.next_or_dash(words.block_end(client).map(|t| t.0));
    out.put(&[b' ', flag(words.is_bypassable(client)), b'\n']);
}

pub(crate) fn put_header(out: &mut Output<'_>, words: &Words)
    ensures same_reference { out.new.buffer.ghost_name ≡ out.old.buffer.ghost_name }
{
    put_settings(out, words);
    out.put(b"sums");
    out.next(words.of_side(header::SUM, true));
    out.next(words.of_side(header::SUM, false));
    out.put(b"\n");
    put_block(out, words, true);
    put_block(out, words, false);
    put_line(out, b"ended", words.header[header::ENDED]);
    put_line(out, b"rounds", words.header[header::ROUNDS]);
    put_line(out, b"free", words.entry(header::FREE).count);
}

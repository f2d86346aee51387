// The three aggregate tests of delay.rs. Margins and sum are handed in, each by itself: docs/DECISIONS.md has why.
// What stands for each type in the rules is in specs/Tests; that the tests are the rules' own at the usual margins, in proofs/Rules.
#![tactic(auto)]

ghost use Rattle.std.specs.Prelude.{◌≡◌};
ghost use Rattle.rules.specs.Aggregates.{base_moment, within};
ghost use Rattle.queue.specs.Views.{side_at, moment_no};
ghost use Rattle.delay.specs.Tests.{delayed_of, usual_margins, without, Packets, expire_over, replace_over, delayed_over, sums_over, TestedAs, AskedAs};

use moment::{Length, Moment, Sum};
use queue::{Queue, SideView};
use queue_event::chain::Reach;

pub mod waiting;

// The margins of the tests.
#[derive(Clone, Copy)]
pub struct Margins {
    pub buffer: Length,
    pub base: Length,
    pub adjacent: Length,
}

// What a test found: the length to be aggregated, if any, and the sum that it formed: the base head's moment with the sum added.
#[derive(Clone, Copy)]
pub struct Tested {
    pub by: Option<Length>,
    pub base: Option<Moment>,
}

// Whether a test holds, and the sum that it formed.
// No Option: the sum stands whatever the test says.
#[derive(Clone, Copy)]
pub struct Asked {
    pub yes: bool,
    pub base: Option<Moment>,
}

pub fn usual() -> Margins
    ensures { result ≡ usual_margins }
{
    Margins {
        buffer: Length::BUFFER_WINDOW,
        base: Length::BASE_WINDOW,
        adjacent: Length::ADJACENT_WINDOW,
    }
}

// The moment of the base head of a side, plus a sum.
pub fn base_moment(side: &SideView, sum: Sum) -> Option<Moment>
    ensures { moment_no result ≡ base_moment sum.length.0 (side_at side.now).queues.base }
{
    let first = side.view.head(Queue::Base.chain(side.client))?;
    Some(first.moment().plus(sum.length))
}

// Whether the base head is within reach.
fn base_within(base: Option<Moment>, reach: Reach) -> bool
    ensures { result ≡ within reach.margin.0 reach.from.0 (moment_no base) }
{
    base.is_some_and(|m| reach.has(m))
}

// `agg_delay_on_blocking_expire`: a block ends while the first packet waits since `from`.
pub fn agg_delay_on_blocking_expire(
    side: &SideView,
    end: Moment,
    from: Moment,
    sum: Sum,
    margins: Margins,
) -> Option<Length>
    ensures { delayed_of result ≡ expire_over margins sum.length.0 (side_at side.now) end.0 from.0 }
{
    let burst = Reach {
        from,
        margin: margins.buffer,
    };
    let tail = waiting::burst_tail(side, burst);
    let near = Reach {
        from,
        margin: margins.base,
    };
    if end == tail || base_within(base_moment(side, sum), near) {
        return None;
    }
    Some(end.since(tail))
}

// `agg_delay_on_padding_bypass_replace`: padding is replaced by the packet at the head of the queue `of`, which counts as out of it.
pub fn agg_delay_on_padding_bypass_replace(
    side: &SideView,
    of: Queue,
    time: Moment,
    from: Moment,
    sum: Sum,
    margins: Margins,
) -> Tested
    requires { Packets of }
    ensures { TestedAs result
        (replace_over margins sum.length.0 (without (side_at side.now) of) time.0 from.0)
        (sums_over margins sum.length.0 (without (side_at side.now) of) from.0) }
{
    let adjacent = Reach {
        from,
        margin: margins.adjacent,
    };
    if waiting::beside(side, of, adjacent) {
        return Tested {
            by: None,
            base: None,
        };
    }
    let base = base_moment(side, sum);
    let near = Reach {
        from,
        margin: margins.base,
    };
    if base_within(base, near) {
        return Tested { by: None, base };
    }
    Tested {
        by: Some(time.since(from)),
        base,
    }
}

// `should_delayed_packet_prop_agg_delay`: a rate limit delays a packet of the moment `from`.
pub fn should_delayed_packet_prop_agg_delay(
    side: &SideView,
    from: Moment,
    sum: Sum,
    margins: Margins,
) -> Asked
    ensures { AskedAs result
        (delayed_over margins sum.length.0 (side_at side.now) from.0)
        (sums_over margins sum.length.0 (side_at side.now) from.0) }
{
    let adjacent = Reach {
        from,
        margin: margins.adjacent,
    };
    if waiting::adjacent(side, adjacent) {
        return Asked {
            yes: false,
            base: None,
        };
    }
    let base = base_moment(side, sum);
    let near = Reach {
        from,
        margin: margins.base,
    };
    let yes = !base_within(base, near);
    Asked { yes, base }
}

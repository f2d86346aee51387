// The window of stamps, and the delay that a full one adds.
ghost use Rattle.std.specs.Prelude.{◌≡◌, ◌-◌, ◌≤◌, length, ltb};
ghost use Rattle.rules.specs.NetworkStep.{rate_of, extra_over};
ghost use Rattle.queue_event.specs.Words.{moment_of};
ghost use Rattle.layout.specs.Layout.{unless_zero};
ghost use Rattle.queue.specs.Views.{side_at};
ghost use Rattle.network.specs.Stamps.{limit_of, Above, RatedAs, evicted_count, FilledAs};

use moment::{Length, Moment, Span};
use queue::{SideView, header};
use queue_event::read::Record;

// How many of the oldest stamps go, and the delay that the stamps left add, the new one with them.
#[derive(Clone, Copy)]
pub struct Filled {
    pub stale: u64,
    pub extra: Length,
}

// Network rate, else queue rate, else no limit.
pub fn rate_of(network: u64, queue: u64) -> Option<u64>
    ensures { RatedAs result (rate_of (unless_zero network) (unless_zero queue)) }
{
    let network = (network != 0).then_some(network);
    let queue = (queue != 0).then_some(queue);
    network.or(queue)
}

// Whether a stamp is too old to stay: one whose age is the window stays.
fn stale(stamp: &Record, time: Moment, window: Length) -> bool
    ensures { result ≡ ltb window.0 (time.0 - moment_of stamp.now.records.now stamp.now.at) }
{
    window < time.since(stamp.moment())
}

// How many of the oldest stamps go.
pub fn stale_stamps(side: &SideView, time: Moment, window: Length) -> u64
    ensures { result ≡ evicted_count window.0 time.0 (side_at side.now).stamps }
{
    let stamps = side.view.chain(header::stamps(side.client));
    let gone = stamps
        .take_while(|stamp| stale(stamp, time, window))
        .count();
    gone as u64
}

// What a count above the limit adds.
pub fn extra(window: Span, count: u64, rate: Option<u64>) -> Length
    requires count_small { count ≤ 65536 }
    requires rate_above { Above (limit_of rate) }
    ensures { result.0 ≡ extra_over window.length.0 count (limit_of rate) }
{
    match rate {
        Some(p) if p < count => window.length.share(p).times(count - p),
        _ => Length(0),
    }
}

// The window after a new stamp: what goes, and the delay that it adds.
pub fn fill(side: &SideView, time: Moment, window: Span, rate: Option<u64>) -> Filled
    requires few { length side.now.view.records.now ≤ 262140 }
    requires rate_above { Above (limit_of rate) }
    ensures { FilledAs result window.length.0 time.0 (limit_of rate) (side_at side.now).stamps }
{
    let stale = stale_stamps(side, time, window.length);
    let stamps = side.view.words.entry(header::stamps(side.client));
    let count = stamps.count - stale + 1;
    let extra = extra(window, count, rate);
    Filled { stale, extra }
}

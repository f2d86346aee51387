// The sums that number 10 looks at: those of every round, and those of what it takes up.
ghost use Rattle.std.specs.Prelude.{◌≡◌, List, [], ◌∷◌, ℕ, ◌≤◌};
ghost use Rattle.rules.specs.Limits.{moment_limit, duration_limit};
ghost use Rattle.rules.specs.Aggregates.{base_moment, some_sum};
ghost use Rattle.rules.specs.ChoiceRound.{fits, always_sums, candidate_sums, raised_sum, action_sums, a_block};
ghost use Rattle.event.specs.HandedIn.{aggregate_in};
ghost use Rattle.layout.specs.Layout.{state_from};
ghost use Rattle.queue.specs.Heads.{side_held};
ghost use Rattle.queue.specs.Views.{state_in, side_at};
ghost use Rattle.queue_peek.specs.Decoded.{block_from};
ghost use Rattle.delay.specs.Tests.{delayed_of};
ghost use Rattle.candidate.specs.Candidates.{action_value, candidate_of, held_up_at, Stands, Reckoned};

use crate::{Candidate, Planned};
use event::{ActionKind, AggregateDelay};
use moment::{Length, Moment, Time};
use network::{Lag, aggregate};
use queue::{SideView, View, header};
use queue_peek::Slotted;
use queue_peek::blocks::BlockEnd;

// The base head of a side plus its sum.
fn base_fits(side: &SideView) -> bool
    ensures { result ≡ fits (some_sum (base_moment (side_at side.now).sum (side_at side.now).queues.base)) }
{
    let base_sum = side.sum();
    aggregate::base_fits(delay::base_moment(side, base_sum))
}

// The sums of every round: the round total, and both base heads plus their side's sum.
pub fn always_fits(view: &View) -> bool
    ensures { result ≡ fits (always_sums (state_in view.now)) }
{
    view.words.header[header::ROUNDS] < Moment::LIMIT
        && base_fits(&view.side(true))
        && base_fits(&view.side(false))
}

// An aggregate's length on top of its side's sum. A length above the limit is not added.
fn aggregate_fits(slotted: &Slotted, a: AggregateDelay) -> bool
    ensures { (rs : List ℕ) → result ≡ fits (raised_sum (state_from slotted.now.words.header.now rs) (aggregate_in a) ∷ []) }
{
    if !a.length.fits_sum() {
        return false;
    }
    let sum = Length(slotted.words.of_side(header::SUM, a.client));
    sum.plus(a.length).fits_sum()
}

// The moment of `BlockingEnd`, and those of the two aggregates where `by` is what the test finds.
fn block_fits(slotted: &Slotted, time: Time, k: BlockEnd, by: Option<Length>) -> bool
    requires { k.end.0 ≤ moment_limit }
    ensures { (rs : List ℕ) → delayed_of by ≡ held_up_at (state_from slotted.now.words.header.now rs) time.at.0 (block_from k)
        → result ≡ fits (candidate_sums (state_from slotted.now.words.header.now rs) time.at.0 (a_block (block_from k))) }
{
    let end = Time {
        at: k.end_moment(time.at),
    };
    let reporting = slotted.words.reporting_delay(k.client);
    let lag = Lag {
        delay: slotted.words.network_delay(),
        time: end,
    };
    end.at.plus(reporting).fits() && aggregate::fit(lag, k.client, by)
}

// The end of a block that an action sets, and the moment of `BlockingBegin`.
fn action_fits(slotted: &Slotted, p: Planned) -> bool
    requires moment_small { p.action.moment.0 ≤ moment_limit }
    requires duration_small { p.action.duration.0 ≤ duration_limit }
    ensures { (rs : List ℕ) → result ≡ fits (action_sums (action_value p.action).kind (side_held slotted.now.words.header.now rs p.slot.client) (action_value p.action)) }
{
    let a = p.action;
    if a.kind.0 == ActionKind::SEND_PADDING {
        return true;
    }
    if !a.moment.plus(a.duration).fits() {
        return false;
    }
    a.moment
        .plus(slotted.words.both_delays(p.slot.client))
        .fits()
}

// The sums of what the round takes up.
pub fn candidate_fits(slotted: &Slotted, time: Time, c: Candidate) -> bool
    requires { (rs : List ℕ) × Stands slotted.now.words.header.now rs c }
    ensures { (rs : List ℕ) → Reckoned slotted.now.words.header.now rs time.at.0 c
        → result ≡ fits (candidate_sums (state_from slotted.now.words.header.now rs) time.at.0 (candidate_of slotted.now.words.header.now c)) }
{
    match c {
        Candidate::Aggregate(a) => aggregate_fits(slotted, a),
        Candidate::Block(k, by) => block_fits(slotted, time, k, by),
        Candidate::Event(_) | Candidate::Timer(_) => true,
        Candidate::Action(p) => action_fits(slotted, p),
    }
}

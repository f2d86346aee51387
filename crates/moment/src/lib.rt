// A moment and a length of time, as Instant and Duration are: whole nanoseconds, added only by named operations.
#![tactic(auto)]

ghost use Rattle.std.specs.Prelude.{◌≡◌, ◌+◌, ◌-◌, ◌*◌, ◌/◌, ◌^◌, ◌<◌, ◌≤◌, max, leb, ltb, MatchOption};
ghost use Rattle.rules.specs.Limits.{moment_limit, delay_limit, duration_limit};

#[derive(Clone, Copy, PartialEq, Eq, PartialOrd, Ord)]
pub struct Moment(pub u64);

#[derive(Clone, Copy, PartialEq, Eq, PartialOrd, Ord)]
pub struct Length(pub u64);

// A moment within the limit, as a call's time is once it is tested.
#[derive(Clone, Copy)]
pub struct Time {
    pub at: Moment,
    pub ghost within: { at.0 ≤ moment_limit },
}

// A side's sum of delays, which may be added to any moment within the limit.
// A type beside Span: one over its limit as a const parameter would have the number in every signature.
#[derive(Clone, Copy)]
pub struct Sum {
    pub length: Length,
    pub ghost within: { length.0 ≤ moment_limit },
}

// A delay or a window of the settings: no longer than a duration may be.
#[derive(Clone, Copy)]
pub struct Span {
    pub length: Length,
    pub ghost within: { length.0 ≤ duration_limit },
}

impl Moment {
    // 2^62 - 1, for moments, sums, the lengths of aggregates and the round total.
    pub const LIMIT: u64 = 4_611_686_018_427_387_903;

    // The last moment that the state may hold.
    pub fn limit() -> Moment
        ensures { result.0 ≡ moment_limit }
    {
        Moment(Moment::LIMIT)
    }

    pub fn fits(self) -> bool
        ensures { result ≡ leb self.0 moment_limit }
    {
        self <= Moment::limit()
    }

    // The moment as a time, if it is within the limit.
    pub fn limited(self) -> Option<Time>
        ensures { MatchOption result (moment_limit < self.0) (λ t. t.at ≡ self) }
    {
        if !self.fits() {
            return None;
        }
        Some(Time { at: self })
    }

    // The length from `earlier` to this moment; 0 where `earlier` is later.
    pub fn since(self, earlier: Moment) -> Length
        ensures { result.0 ≡ self.0 - earlier.0 }
    {
        Length(self.0.saturating_sub(earlier.0))
    }

    pub fn plus(self, l: Length) -> Moment
        requires { self.0 + l.0 < 2 ^ 64 }
        ensures { result.0 ≡ self.0 + l.0 }
    {
        Moment(self.0 + l.0)
    }

    // This moment moved back.
    pub fn less(self, l: Length) -> Moment
        requires { l.0 ≤ self.0 }
        ensures { result.0 ≡ self.0 - l.0 }
    {
        Moment(self.0 - l.0)
    }

    // Whether it is too early to be moved back so far: a named operation, since a moment and a length have no common order.
    pub fn too_early(self, l: Length) -> bool
        ensures { result ≡ ltb self.0 l.0 }
    {
        self.0 < l.0
    }

    // The word of a moment that may be none: one more, since 0 is none.
    // No From: it would not say that 0 stands for none.
    pub fn stored(self) -> u64
        requires { self.0 + 1 < 2 ^ 64 }
        ensures { result ≡ self.0 + 1 }
    {
        self.0 + 1
    }

    // The moment in such a word, if it holds one.
    pub fn from_stored(word: u64) -> Option<Moment>
        ensures { MatchOption result (word ≡ 0) (λ m. m.0 + 1 ≡ word) }
    {
        word.checked_sub(1).map(Moment)
    }
}

impl Length {
    // The windows of delay.rs: 1 ms, 1 ms and 100 ms.
    pub const BASE_WINDOW: Length = Length(1_000_000);

    pub const BUFFER_WINDOW: Length = Length(1_000_000);

    pub const ADJACENT_WINDOW: Length = Length(100_000_000);

    // 10^12, for delays and durations.
    pub const LIMIT: u64 = 1_000_000_000_000;

    // The longest network, window, action or reporting delay, and the longest duration.
    pub fn limit() -> Length
        ensures { result.0 ≡ duration_limit }
    {
        Length(Length::LIMIT)
    }

    // Of an action's and a reporting delay together.
    pub const DELAY_LIMIT: u64 = 2 * Length::LIMIT;

    // The longest delay of an event: an action's and a reporting delay.
    pub fn delay_limit() -> Length
        ensures { result.0 ≡ delay_limit }
    {
        Length(Length::DELAY_LIMIT)
    }

    // The greatest sum of a side and the greatest length of an aggregate.
    pub fn sum_limit() -> Length
        ensures { result.0 ≡ moment_limit }
    {
        Length(Moment::LIMIT)
    }

    pub fn fits(self) -> bool
        ensures { result ≡ leb self.0 duration_limit }
    {
        self <= Length::limit()
    }

    pub fn fits_delay(self) -> bool
        ensures { result ≡ leb self.0 delay_limit }
    {
        self <= Length::delay_limit()
    }

    pub fn fits_sum(self) -> bool
        ensures { result ≡ leb self.0 moment_limit }
    {
        self <= Length::sum_limit()
    }

    pub fn plus(self, l: Length) -> Length
        requires { self.0 + l.0 < 2 ^ 64 }
        ensures { result.0 ≡ self.0 + l.0 }
    {
        Length(self.0 + l.0)
    }

    // Whether it is longer than another.
    pub fn exceeds(self, l: Length) -> bool
        ensures { result ≡ ltb l.0 self.0 }
    {
        l < self
    }

    // What is left of this length after another that is no longer.
    pub fn less(self, l: Length) -> Length
        requires { l.0 ≤ self.0 }
        ensures { result.0 ≡ self.0 - l.0 }
    {
        Length(self.0 - l.0)
    }

    pub fn times(self, n: u64) -> Length
        requires { self.0 * n < 2 ^ 64 }
        ensures { result.0 ≡ self.0 * n }
    {
        Length(self.0 * n)
    }

    // One of n equal shares, rounded down.
    pub fn share(self, n: u64) -> Length
        requires { 0 < n }
        ensures { result.0 ≡ self.0 / n }
    {
        Length(self.0 / n)
    }
}

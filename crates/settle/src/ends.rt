// The search over one candidate: the times at which it is below the buckets seen so far, and how a bucket more narrows them.
ghost use Rattle.std.specs.Prelude.{◌≡◌, ◌*◌, ◌^◌, ◌<◌};

use checks::Bucket;

// A time as a fraction, ticks/over, whose cross products fit 64 bits. (Over 0 it is later than all others.)
#[derive(Clone, Copy)]
struct Time {
    ticks: u64,
    over: u64,
    ghost ticks_fit: { ticks < 2 ^ 41 },
    ghost over_fits: { over < 2 ^ 20 },
}

impl Time {
    ghost use Rattle.std.specs.Prelude.{ltb};
    ghost use Rattle.checks.specs.Cited.{bucket_of};
    ghost use Rattle.settle.specs.Cited.{Wide, Crosses};

    // When a steeper bucket comes up to a flatter one.
    fn of_crossing(steeper: Bucket, flatter: Bucket) -> Time
        requires steeper { Wide (bucket_of steeper) }
        requires flatter { Wide (bucket_of flatter) }
        ensures { Crosses (bucket_of steeper) (bucket_of flatter) result }
    {
        Time {
            ticks: flatter.burst.saturating_sub(steeper.burst),
            over: steeper.rate.saturating_sub(flatter.rate),
        }
    }

    // Whether it is earlier than another one.
    fn is_before(self, other: Time) -> bool
        ensures { result ≡ ltb (self.ticks * other.over) (other.ticks * self.over) }
    {
        self.ticks * other.over < other.ticks * self.over
    }
}

// The times at which a candidate is below the buckets seen so far: after the one end and before the other, and there are some.
#[derive(Clone, Copy)]
pub(crate) struct Ends {
    low: Time,
    high: Time,
    ghost some_time: { low.ticks * high.over < high.ticks * low.over },
}

#[tactic(auto, using(crate::proofs::Narrowing::narrowing))]
impl Ends {
    ghost use Rattle.checks.specs.Cited.{bucket_of};
    ghost use Rattle.meaning.specs.Computed.{every_time, narrowed};
    ghost use Rattle.settle.specs.Cited.{Wide, between, ends_of, after, before, Leaves};

    // Every positive time.
    #[tactic(auto, unfolding(meaning::specs::Computed::every_time))]
    pub(crate) fn every_time() -> Ends
        ensures { ends_of result ≡ every_time }
    {
        Ends {
            low: Time { ticks: 0, over: 1 },
            high: Time { ticks: 1, over: 0 },
        }
    }

    // The times between two, if there are any.
    fn between(low: Time, high: Time) -> Option<Ends>
        ensures { Leaves (between low high) result }
    {
        if low.is_before(high) {
            return Some(Ends { low, high });
        }
        None
    }

    // Those that are after a time, if there are any.
    fn after(self, time: Time) -> Option<Ends>
        ensures { Leaves (after self time) result }
    {
        if self.low.is_before(time) {
            return Ends::between(time, self.high);
        }
        Some(self)
    }

    // Those that are before a time, if there are any.
    fn before(self, time: Time) -> Option<Ends>
        ensures { Leaves (before self time) result }
    {
        if time.is_before(self.high) {
            return Ends::between(self.low, time);
        }
        Some(self)
    }

    // The times that are left once bucket j is seen too, if there are any. A flatter one is above c only up to their crossing, a
    // steeper one only past it, and one of the same rate never, or always.
    pub(crate) fn narrowed(self, c: Bucket, j: Bucket) -> Option<Ends>
        requires candidate { Wide (bucket_of c) }
        requires next { Wide (bucket_of j) }
        ensures { Leaves (narrowed (bucket_of c) (bucket_of j) (ends_of self)) result }
    {
        if j.rate < c.rate {
            return self.before(Time::of_crossing(c, j));
        }
        if c.rate < j.rate {
            return self.after(Time::of_crossing(j, c));
        }
        if j.burst < c.burst {
            return None;
        }
        Some(self)
    }
}

// The candidates for the normal form among raw buckets: by falling rates, the one of smallest burst of each rate. Where the
// buckets stand in that order, one pass finds them all; where not, there is a pass for each.
ghost use Rattle.std.specs.Prelude.{◌≡◌, true};
ghost use Rattle.std.specs.Coded.{→_prop};
ghost use Rattle.checks.specs.Cited.{Tells, bucket_of};
ghost use Rattle.settle.specs.Order.{bucket_in, buckets_in, is_ahead, InOrder, InOrder-prop, Keeps, Best};

use checks::{Bucket, limits};

// The bucket of two numbers, its rate and then its burst.
pub(crate) fn bucket(pair: &[u64; 2]) -> Bucket
    ensures { bucket_of result ≡ bucket_in pair.now }
{
    let [rate, burst] = *pair;
    Bucket { rate, burst }
}

// Whether c is not behind k, by falling rates, and by rising bursts among those of one rate.
#[tactic(auto, unfolding(crate::specs::Order::is_ahead))]
fn ahead(c: Bucket, k: Bucket) -> bool
    ensures { result ≡ is_ahead (bucket_of c) (bucket_of k) }
{
    k.rate < c.rate || (k.rate == c.rate && c.burst <= k.burst)
}

// Whether the buckets stand in that order.
fn in_order(pairs: &[[u64; 2]]) -> bool
    ensures { Tells (InOrder (buckets_in pairs.now)) result }
{
    pairs.is_sorted_by(|c, k| ahead(bucket(c), bucket(k)))
}

// Of the bucket found so far and the next one the first by that order; only rates below the bound count.
#[tactic(auto, using(crate::proofs::Steepest::bettering))]
fn better(best: Option<Bucket>, next: Bucket, bound: u64) -> Option<Bucket>
    ensures { Keeps bound best next result }
{
    if bound <= next.rate {
        return best;
    }
    match best {
        Some(first) if ahead(first, next) => best,
        _ => Some(next),
    }
}

// The first bucket by that order of those with a rate below the bound, if there is one.
fn steepest_below(pairs: &[[u64; 2]], bound: u64) -> Option<Bucket>
    ensures { Best bound (buckets_in pairs.now) result }
{
    let mut best = None;
    for pair in pairs {
        best = better(best, bucket(pair), bound);
    }
    best
}

// The candidates that are still to come: of the buckets left, those with a rate below the bound.
#[derive(Drop)]
pub(crate) struct Candidates<'a> {
    left: &'a [[u64; 2]],
    bound: u64,
    ordered: bool,
    ghost in_order: { ordered ≡ true → InOrder (buckets_in left.now) } by { →_prop (InOrder-prop (buckets_in left.now)) },
}

impl<'a> Candidates<'a> {
    ghost use Rattle.settle.specs.Cited.{Starts, Comes, Bounds};

    // All of them.
    pub(crate) fn of(pairs: &'a [[u64; 2]]) -> Candidates<'a>
        ensures { Starts pairs.now result }
    {
        Candidates {
            left: pairs,
            bound: limits::RATE_END,
            ordered: in_order(pairs),
        }
    }

    // The next one, if there is one.
    pub(crate) fn next(&mut self) -> Option<Bucket>
        ensures comes { Comes self.old result self.new }
        ensures bounds { Bounds result self.new }
    {
        let next = if self.ordered {
            self.next_in_order()?
        } else {
            steepest_below(self.left, self.bound)?
        };
        self.bound = next.rate;
        Some(next)
    }

    // The first bucket with a rate below the bound, which is the next one where they stand in order; those before it are passed.
    fn next_in_order(&mut self) -> Option<Bucket>
        requires { self.old.ordered ≡ true }
        ensures { Comes self.old result self.new }
    {
        while let Some((first, rest)) = self.left.split_first() {
            let next = bucket(first);
            if next.rate < self.bound {
                return Some(next);
            }
            self.left = rest;
        }
        None
    }
}

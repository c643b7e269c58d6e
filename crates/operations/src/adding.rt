// Two curves added by merging: both lists are walked once, from crossing to crossing, and each bucket on the way is the sum of the
// two at hand.
ghost use Rattle.std.specs.Prelude.{◌≡◌, ◌<◌, length, map, take};
ghost use Rattle.meaning.specs.Computed.{merged_sum};
ghost use Rattle.checks.specs.Held.{curve_held};
ghost use Rattle.settle.specs.Cited.{numbers};
ghost use Rattle.operations.specs.Cited.{TurnAfter, AtHand, StepOf};

use crate::crossings::{Crossing, crossing_at};
use arrayvec::ArrayVec;
use checks::{Curve, limits};

// By how many buckets a walk goes on in each list: 0 or 1.
#[derive(Clone, Copy, Debug, PartialEq, Eq)]
struct Step {
    first: usize,
    second: usize,
}

// When a curve goes over from the bucket numbered i to the next: at their crossing; after every time, as 1 / 0, where it is the
// last.
fn turn_after(curve: Curve<'_>, i: usize) -> Crossing
    requires { i < length (curve_held curve) }
    ensures { TurnAfter (curve_held curve.entry) i result }
{
    if curve.count() <= i + 1 {
        return Crossing { rise: 1, fall: 0 };
    }
    crossing_at(curve, i + 1)
}

// The step from the buckets numbered i and j on, which are not both the last: in the list that turns first, and in both where they
// turn together. Times are compared as the fractions that they are, by products below 2^60. (Numbers and no branches: which list goes
// on next cannot be foreseen.)
fn step_of(f: Curve<'_>, g: Curve<'_>, i: usize, j: usize) -> Step
    requires { AtHand (curve_held f) (curve_held g) i j }
    ensures { StepOf (curve_held f.entry) (curve_held g.entry) i j result }
{
    let a = turn_after(f, i);
    let b = turn_after(g, j);
    let a_time = a.rise * b.fall;
    let b_time = b.rise * a.fall;
    Step {
        first: usize::from(a_time <= b_time),
        second: usize::from(b_time <= a_time),
    }
}

// The buckets of the sum, up to the 65th: a curve has no more than 64.
pub(crate) fn add(f: Curve<'_>, g: Curve<'_>) -> ArrayVec<[u64; 2], 65>
    ensures { result.items ≡ map numbers (take 65 (merged_sum (curve_held f.entry) (curve_held g.entry))) }
{
    let buckets = f.count() + g.count();
    let mut all = ArrayVec::new();
    let mut i = 0;
    let mut j = 0;
    for _ in 0..=limits::BUCKETS {
        let a = f.bucket(i);
        let b = g.bucket(j);
        all.push([a.rate + b.rate, a.burst + b.burst]);
        // Both are at their last bucket.
        if buckets <= i + j + 2 {
            break;
        }
        let step = step_of(f, g, i, j);
        i += step.first;
        j += step.second;
    }
    all
}

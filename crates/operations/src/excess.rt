// M: by how much a curve is ahead of R bits a tick, at most.
ghost use Rattle.std.specs.Prelude.{◌≤◌, ◌<◌, ◌^◌};
ghost use Rattle.meaning.specs.Server.{Excess, last};
ghost use Rattle.checks.specs.Held.{curve_held};
ghost use Rattle.operations.specs.Walks.{FirstSlow};

use crate::crossings::crossing_at;
use crate::lowest::{least_before, least_from};
use checks::Curve;

// The number of the first bucket that is no faster than R. The last one is not.
pub(crate) fn first_slow(curve: Curve<'_>, rate: u64) -> usize
    requires { (last (curve_held curve)).rate ≤ rate }
    ensures { FirstSlow (curve_held curve.entry) rate result }
{
    let last = curve.count() - 1;
    for k in 0..last {
        if curve.bucket(k).rate <= rate {
            return k;
        }
    }
    last
}

// M, where `first` is the first bucket of rate at most R. What is read less R·s rises up to its crossing with the bucket before it
// and falls after it: M is had at the whole tick up to the crossing or at the next. What is read at the one is of a bucket before
// `first`, at the other of one from `first` on.
pub(crate) fn excess(curve: Curve<'_>, rate: u64, first: usize) -> u64
    requires first_slow { FirstSlow (curve_held curve) rate first }
    requires rate_fits { rate < 2 ^ 20 }
    ensures { Excess (curve_held curve.entry) rate result }
{
    if first == 0 {
        return curve.bucket(0).burst;
    }
    let crossing = crossing_at(curve, first);
    let tick = crossing.rise / crossing.fall;
    let up_to = least_before(curve, first, tick).saturating_sub(rate * tick);
    let after = least_from(curve, first, tick + 1).saturating_sub(rate * (tick + 1));
    up_to.max(after)
}

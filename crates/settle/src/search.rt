// The search for the useful buckets among raw ones, in local memory: candidates by falling rates, and over each a search through
// all buckets that is left at the first proof that the candidate is useless.
ghost use Rattle.std.specs.Prelude.{◌≡◌, []};
ghost use Rattle.settle.specs.Order.{buckets_in};
ghost use Rattle.settle.specs.Cited.{AllWide, Chose};

use crate::candidates::{Candidates, bucket};
use crate::ends::Ends;
use arrayvec::{ArrayVec, CapacityError};
use checks::limits;

// The useful buckets by falling rates, put into an empty vector, which refuses the 65th. The search over a candidate ends at the
// first bucket that leaves no time.
pub(crate) fn choose(
    pairs: &[[u64; 2]],
    chosen: &mut ArrayVec<[u64; 2], { limits::BUCKETS }>,
) -> Result<(), CapacityError<[u64; 2]>>
    requires wide { AllWide (buckets_in pairs.now) }
    requires empty { chosen.old.items ≡ [] }
    ensures { Chose (buckets_in pairs.now) chosen.new.items result }
{
    let mut candidates = Candidates::of(pairs);
    'next: while let Some(candidate) = candidates.next() {
        let mut ends = Ends::every_time();
        for pair in pairs {
            // Where no time is left, one bucket, or a steeper and a flatter one together, cover the candidate.
            let Some(left) = ends.narrowed(candidate, bucket(pair)) else {
                continue 'next;
            };
            ends = left;
        }
        chosen.try_push([candidate.rate, candidate.burst])?;
    }
    Ok(())
}

// From buckets in local memory to a curve in a part of a lent table, which is written once, at the end, when no refusal is left.
ghost use Rattle.settle.specs.Cited.{delivering};
ghost use Rattle.settle.specs.Parts.{Answers};

use crate::part::Part;
use checks::{Refusal, limits};

// Buckets handed over as they stand, as a curve in a part of a table. It takes any list: LIST where no whole buckets come out of it,
// LARGE where they are no curve's, ROOM where the part is too short. A step of the operations, and no entry point. Answers how many
// buckets they are.
pub fn deliver(pairs: &[u64], table: &mut [u64], part: Part) -> Result<usize, Refusal>
    ensures { Answers (delivering pairs.now) part table.old table.new result }
{
    checks::even(pairs)?;
    if 2 * limits::BUCKETS < pairs.len() {
        return Err(Refusal::Large);
    }
    if !checks::within(pairs, limits::RATE_END, limits::BURST_END) {
        return Err(Refusal::Large);
    }
    part.write(pairs, table)?;
    Ok(pairs.len() / 2)
}

// From raw buckets to the answer in a part of a lent table: the normal form is chosen in local memory, then handed over. These are
// steps of the operations, and no entry points; each takes any list all the same.
#![tactic(auto)]

mod candidates;
pub mod deliver;
mod ends;
mod part;
mod search;

ghost use Rattle.std.specs.Prelude.{◌≡◌};
ghost use Rattle.meaning.specs.Refusal.{Verdict};
ghost use Rattle.checks.specs.Table.{code_of};
ghost use Rattle.settle.specs.Cited.{settling};
ghost use Rattle.settle.specs.Parts.{Answers};

use crate::deliver::deliver;
pub use crate::part::Part;
use crate::search::choose;
use arrayvec::ArrayVec;
use checks::{Refusal, limits};

// Tests raw buckets, of which there may be any number.
fn refusal(raw: &[u64]) -> Result<(), Refusal>
    ensures { Verdict (settling raw.now).operands (code_of result) }
{
    checks::even(raw)?;
    if !checks::within(raw, limits::RATE_END, limits::RAW_BURST_END) {
        return Err(Refusal::Range);
    }
    Ok(())
}

// The normal form of raw buckets, in a part of a table. Answers how many buckets it has.
pub fn settle(raw: &[u64], table: &mut [u64], part: Part) -> Result<usize, Refusal>
    ensures { Answers (settling raw.now) part table.old table.new result }
{
    refusal(raw)?;
    let mut chosen = ArrayVec::new();
    if choose(raw.as_chunks::<2>().0, &mut chosen).is_err() {
        return Err(Refusal::Large);
    }
    deliver(chosen.as_slice().as_flattened(), table, part)
}

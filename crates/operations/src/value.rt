// A curve's value at a tick, and its burst.
ghost use Rattle.meaning.specs.CurveQuestions.{ValueOutcome, BurstOutcome};
ghost use Rattle.checks.specs.Table.{code_of, told};

use crate::lowest::least_from;
use checks::Refusal;

// What a curve gives at a tick: nothing at 0.
pub fn value(curve: &[u64], tick: u64) -> Result<u64, Refusal>
    ensures { ValueOutcome curve.now tick (code_of result) (told result) }
{
    let (curve, ()) = checks::both(checks::curve(curve), checks::tick(tick))?;
    if tick == 0 {
        return Ok(0);
    }
    Ok(least_from(curve, 0, tick))
}

// What may come at once: the smallest burst, which is the first bucket's.
pub fn burst(curve: &[u64]) -> Result<u64, Refusal>
    ensures { BurstOutcome curve.now (code_of result) (told result) }
{
    let curve = checks::curve(curve)?;
    Ok(curve.bucket(0).burst)
}

// The tests for refusals, of one operand each, and which of two refusals wins. Each takes any list and any number.
#![tactic(auto)]

pub mod limits;
mod refusal;
mod tested;

ghost use Rattle.std.specs.Prelude.{◌≡◌, length, IfOk};
ghost use Rattle.meaning.specs.CurveQuestions.{tick_line, link_line};
ghost use Rattle.meaning.specs.Refusal.{LIST, ◌when◌, Verdict, Uneven, raw_lines, curve_lines, AllInRange, AllWithin};
ghost use Rattle.meaning.specs.Curve.{buckets, curve_of, NormalForm};
ghost use Rattle.meaning.specs.Computed.{earlier};
ghost use Rattle.checks.specs.Cited.{Tells, bucket_of, nth};
ghost use Rattle.checks.specs.Table.{code_of};

pub use crate::refusal::Refusal;
pub use crate::tested::Curve;

// A bucket.
#[derive(Clone, Copy, Debug, PartialEq, Eq)]
pub struct Bucket {
    pub rate: u64,
    pub burst: u64,
}

// The smaller of two codes as C has them, where 0 is none. (Code here tests two operands by `both`.)
#[tactic(auto, using(crate::proofs::Checks::smaller_code))]
pub fn earlier(a: u64, b: u64) -> u64
    ensures { result ≡ earlier a b }
{
    if a == 0 {
        return b;
    }
    if b == 0 {
        return a;
    }
    a.min(b)
}

// Two operands that are tested: both values, or of the refusals the one that wins.
pub fn both<A: Copy, B: Copy>(
    first: Result<A, Refusal>,
    second: Result<B, Refusal>,
) -> Result<(A, B), Refusal>
    ensures code { code_of result ≡ earlier (code_of first) (code_of second) }
    ensures values { IfOk result (λ p. (first ≡ Ok p.0) × (second ≡ Ok p.1)) }
{
    match (first, second) {
        (Ok(a), Ok(b)) => Ok((a, b)),
        (Err(a), Err(b)) => Err(a.min(b)),
        (Err(a), Ok(_)) => Err(a),
        (Ok(_), Err(b)) => Err(b),
    }
}

// Whether every rate is below `rates` and every burst below `bursts`.
pub fn within(list: &[u64], rates: u64, bursts: u64) -> bool
    ensures { Tells (AllWithin rates bursts (buckets list.now)) result }
{
    for &[rate, burst] in list.as_chunks::<2>().0 {
        if rates <= rate || bursts <= burst {
            return false;
        }
    }
    true
}

// How many buckets a curve's list has.
#[tactic(auto, using(crate::proofs::Buckets::nths))]
pub fn bucket_count(curve: &[u64]) -> usize
    ensures { result ≡ length (curve_of curve.now) }
{
    curve.len() / limits::BUCKET_NUMBERS
}

// The bucket numbered k, from 0, of a curve's list; (0, 0) where there is none.
#[tactic(auto, using(crate::proofs::Buckets::nths))]
pub fn bucket_at(curve: &[u64], k: usize) -> Bucket
    ensures { bucket_of result ≡ nth (curve_of curve.now) k }
{
    if curve.len() / limits::BUCKET_NUMBERS <= k {
        return Bucket { rate: 0, burst: 0 };
    }
    let at = limits::BUCKET_NUMBERS * k;
    Bucket {
        rate: curve[at],
        burst: curve[at + 1],
    }
}

// Whether a curve's list is in normal form, by its neighbours: rates fall, and each crossing comes after the one before. x/y is
// the crossing of the bucket before with the one before that, 0/1 at the first.
fn in_form(curve: &[u64]) -> bool
    requires { AllInRange (curve_of curve.now) }
    ensures { Tells (NormalForm (curve_of curve.now)) result }
{
    let count = bucket_count(curve);
    if count == 0 {
        return false;
    }
    let mut before = bucket_at(curve, 0);
    let mut x = 0;
    let mut y = 1;
    for k in 1..count {
        let here = bucket_at(curve, k);
        if before.rate <= here.rate || here.burst <= before.burst {
            return false;
        }
        let rise = here.burst - before.burst;
        let fall = before.rate - here.rate;
        if rise * y <= x * fall {
            return false;
        }
        before = here;
        x = rise;
        y = fall;
    }
    true
}

// Tests that a list has two numbers for each of its buckets, and one bucket at least.
pub fn even(list: &[u64]) -> Result<(), Refusal>
    ensures { Verdict (LIST when (Uneven 2 list.now)) (code_of result) }
{
    let n = list.len();
    if n == 0 {
        return Err(Refusal::List);
    }
    if n % 2 == 1 {
        return Err(Refusal::List);
    }
    Ok(())
}

// Tests a raw list of buckets.
pub fn raw(list: &[u64]) -> Result<(), Refusal>
    ensures { Verdict (raw_lines list.now) (code_of result) }
{
    even(list)?;
    if 2 * limits::BUCKETS < list.len() {
        return Err(Refusal::Count);
    }
    if !within(list, limits::RATE_END, limits::BURST_END) {
        return Err(Refusal::Range);
    }
    Ok(())
}

// Tests a curve, which is in normal form. (Its list has the numbers of a raw list.)
pub fn curve<'a>(list: &'a [u64]) -> Result<Curve<'a>, Refusal>
    ensures verdict { Verdict (curve_lines list.now) (code_of result) }
    ensures its_list { IfOk result (λ curve. curve.list ≡ list.entry) }
{
    raw(list)?;
    if !in_form(list) {
        return Err(Refusal::Form);
    }
    Ok(Curve { list })
}

// Tests a tick.
pub fn tick(t: u64) -> Result<(), Refusal>
    ensures { Verdict (tick_line t) (code_of result) }
{
    if limits::TICK_END <= t {
        return Err(Refusal::Range);
    }
    Ok(())
}

// Tests a link's rate, which is 1 to 2^20-1, and its longest frame, 0 to 2^40-1.
pub fn link(rate: u64, frame: u64) -> Result<(), Refusal>
    ensures { Verdict (link_line rate frame) (code_of result) }
{
    if rate == 0 || limits::RATE_END <= rate || limits::FRAME_END <= frame {
        return Err(Refusal::Range);
    }
    Ok(())
}

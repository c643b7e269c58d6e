// The refusals of a curve with a server. Where the curve and the server are taken, its last rate is held against the server's.
ghost use Rattle.std.specs.Prelude.{◌≡◌, IfOk};
ghost use Rattle.meaning.specs.Server.{pure_delay, port};
ghost use Rattle.meaning.specs.Refusal.{◌or◌, Verdict, curve_lines};
ghost use Rattle.meaning.specs.ServerQuestions.{server_lines, port_lines, cross_lines};
ghost use Rattle.checks.specs.Table.{code_of};

use checks::{Curve, Refusal};

// Tests a curve and a rate-latency server.
fn curve_and_rate<'a>(curve: &'a [u64], rate: u64, latency: u64) -> Result<Curve<'a>, Refusal>
    ensures verdict { Verdict (curve_lines curve.now or server_lines (port rate latency)) (code_of result) }
    ensures its_list { IfOk result (λ taken. taken.list ≡ curve.entry) }
{
    let (curve, ()) = checks::both(checks::curve(curve), servers::rated_refusal(rate, latency))?;
    Ok(curve)
}

// Tests a curve at a rate-latency server: UNBOUNDED where its last rate is above the server's.
pub(crate) fn at_rate<'a>(curve: &'a [u64], rate: u64, latency: u64) -> Result<Curve<'a>, Refusal>
    ensures verdict { Verdict (port_lines curve.now (port rate latency)) (code_of result) }
    ensures its_list { IfOk result (λ taken. taken.list ≡ curve.entry) }
{
    let curve = curve_and_rate(curve, rate, latency)?;
    if rate < curve.last().rate {
        return Err(Refusal::Unbounded);
    }
    Ok(curve)
}

// Tests a curve at a pure delay. It is never UNBOUNDED.
pub(crate) fn at_delay<'a>(curve: &'a [u64], latency: u64) -> Result<Curve<'a>, Refusal>
    ensures verdict { Verdict (port_lines curve.now (pure_delay latency)) (code_of result) }
    ensures its_list { IfOk result (λ taken. taken.list ≡ curve.entry) }
{
    let (curve, ()) = checks::both(checks::curve(curve), servers::delay_refusal(latency))?;
    Ok(curve)
}

// Tests a cross curve beside which a rate-latency server is to have something left: UNBOUNDED where its last rate is the server's
// or above.
pub(crate) fn cross<'a>(curve: &'a [u64], rate: u64, latency: u64) -> Result<Curve<'a>, Refusal>
    ensures verdict { Verdict (cross_lines curve.now (port rate latency)) (code_of result) }
    ensures its_list { IfOk result (λ taken. taken.list ≡ curve.entry) }
{
    let curve = curve_and_rate(curve, rate, latency)?;
    if rate <= curve.last().rate {
        return Err(Refusal::Unbounded);
    }
    Ok(curve)
}

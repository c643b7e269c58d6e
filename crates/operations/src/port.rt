// A curve at a rate-latency server, where no line refuses the two: M, backlog and delay, and the curve behind.
ghost use Rattle.meaning.specs.Curve.{curve_of};
ghost use Rattle.meaning.specs.Refusal.{Clear};
ghost use Rattle.meaning.specs.Server.{port};
ghost use Rattle.meaning.specs.ServerQuestions.{port_lines};
ghost use Rattle.operations.specs.Walks.{FirstSlow};

use crate::excess::{excess, first_slow};
use crate::lowest::{carries_nothing, least_from};
use crate::{gather, refusals};
use checks::{Bucket, Curve, Refusal};
use settle::{Part, settle};

// The curve, the server's numbers, and which bucket is the first that is no faster than the server. Whoever makes one shows that
// the two are not refused.
#[derive(Clone, Copy)]
pub(crate) struct Port<'a> {
    curve: Curve<'a>,
    rate: u64,
    latency: u64,
    first: usize,
    ghost clear: { Clear (port_lines curve.list.now (port rate latency)) },
    ghost first_slow: { FirstSlow (curve_of curve.list.now) rate first },
}

impl<'a> Port<'a> {
    ghost use Rattle.std.specs.Prelude.{◌≡◌, ◌+◌, ◌*◌, IfOk};
    ghost use Rattle.meaning.specs.Curve.{flat};
    ghost use Rattle.meaning.specs.Server.{Excess, Backlog, Delay};
    ghost use Rattle.meaning.specs.Refusal.{Verdict};
    ghost use Rattle.checks.specs.Held.{curve_held};
    ghost use Rattle.checks.specs.Table.{code_of};
    ghost use Rattle.settle.specs.Cited.{settling};
    ghost use Rattle.settle.specs.Parts.{Answers};
    ghost use Rattle.operations.specs.Cited.{line_and_later};

    // Tests a curve and a server.
    pub(crate) fn open(curve: &'a [u64], rate: u64, latency: u64) -> Result<Port<'a>, Refusal>
        ensures verdict { Verdict (port_lines curve.now (port rate latency)) (code_of result) }
        ensures its_curve { IfOk result (λ opened. opened.curve.list ≡ curve.entry) }
        ensures its_server { IfOk result (λ opened. port opened.rate opened.latency ≡ port rate latency) }
    {
        let curve = refusals::at_rate(curve, rate, latency)?;
        Ok(Port {
            curve,
            rate,
            latency,
            first: first_slow(curve, rate),
        })
    }

    // M, the greatest of reads(s) - R·s.
    pub(crate) fn excess(self) -> u64
        ensures { Excess (curve_held self.entry.curve) self.entry.rate result }
    {
        excess(self.curve, self.rate, self.first)
    }

    // The backlog, from M: it is the burst of the curve behind, the smaller of R·T + M and of the least b + r·T of the buckets of
    // rate at most R.
    pub(crate) fn backlog(self, excess: u64) -> u64
        requires { Excess (curve_held self.curve) self.rate excess }
        ensures { Backlog (curve_held self.entry.curve) (port self.entry.rate self.entry.latency) result }
    {
        let line = self.rate * self.latency + excess;
        line.min(least_from(self.curve, self.first, self.latency))
    }

    // The delay, from M: it is T + M/R, the quotient rounded up; a curve that carries nothing has none.
    pub(crate) fn delay(self, excess: u64) -> u64
        requires { Excess (curve_held self.curve) self.rate excess }
        ensures { Delay (curve_held self.entry.curve) (port self.entry.rate self.entry.latency) result }
    {
        if carries_nothing(self.curve) {
            return 0;
        }
        self.latency + excess.div_ceil(self.rate)
    }

    // The curve behind, from M: (R, R·T + M), and the buckets of rate at most R, each read T ticks later, in normal form.
    pub(crate) fn behind(self, excess: u64, table: &mut [u64], part: Part) -> Result<usize, Refusal>
        requires { Excess (curve_held self.curve) self.rate excess }
        ensures { Answers (settling (flat (line_and_later (curve_held self.entry.curve) self.entry.first self.entry.rate (self.entry.rate * self.entry.latency + excess) self.entry.latency))) part table.old table.new result }
    {
        let line = Bucket {
            rate: self.rate,
            burst: self.rate * self.latency + excess,
        };
        let raw = gather::line_and_later(self.curve, self.first, line, self.latency);
        settle(raw.as_slice().as_flattened(), table, part)
    }
}

// Through the input, hop by hop: from the curve over each server to the line of the route, or to the one line of a refusal.
ghost use Rattle.std.specs.Prelude.{◌≡◌, [], length};
ghost use Rattle.meaning.specs.Route.{Route};
ghost use Rattle.checks.specs.Table.{code_of};
ghost use Rattle.servers.specs.Cited.{server_of, server_told};
ghost use Rattle.routes.specs.Cited.{Due, JoinTo, Stepping, Starts};
ghost use Rattle.routes.specs.Told.{HopTold, StepTold};

use crate::text::Text;
use crate::{CURVE_NUMBERS, reading};
use checks::{Refusal, limits};
use operations::hops::Hop;
use operations::{hops, ports};
use servers::Server;
use settle::Part;

// A route has at most 32 servers.
const SERVERS: u64 = 32;

// A hop of the route: the number of buckets of the curve behind, backlog and delay, and the servers joined so far.
#[derive(Clone, Copy, Debug, PartialEq, Eq)]
struct Step {
    count: usize,
    backlog: u64,
    delay: u64,
    joined: Server,
}

// Whether a server is due: none is passed yet, or bytes are left.
fn is_due(passed: u64, rest: &[u8]) -> bool
    ensures { Due passed rest.now result }
{
    passed == 0 || !rest.is_empty()
}

// The server joined with those before it: the first one by itself.
fn join_to(passed: u64, joined: Server, next: Server) -> Result<Server, Refusal>
    ensures { JoinTo passed (server_of joined) (server_of next) (code_of result) (server_told result) }
{
    if passed == 0 {
        return Ok(next);
    }
    joined.join(next)
}

// The hop at the server that what is left of the input begins with: it is read, and the curve passes it.
fn hop_at(rest: &[u8], curve: &[u64], next: &mut [u64]) -> Result<Hop, Refusal>
    requires room { length next.old ≡ 128 }
    ensures { HopTold rest.now curve.now next.new result }
{
    let server = reading::read_server(rest)?;
    let whole = Part::whole(next);
    hops::pass(curve, server, next, whole)
}

// The same, joined with the servers before it. The first of reading, passing and joining that is refused has the smallest number.
fn step_at(
    rest: &[u8],
    curve: &[u64],
    next: &mut [u64],
    passed: u64,
    joined: Server,
) -> Result<Step, Refusal>
    requires stepping { Stepping curve.now passed (server_of joined) }
    requires room { length next.old ≡ 128 }
    ensures { StepTold curve.now passed (server_of joined) rest.now next.new result }
{
    let hop = hop_at(rest, curve, next)?;
    let all = join_to(passed, joined, hop.server)?;
    Ok(Step {
        count: hop.count,
        backlog: hop.backlog,
        delay: hop.delay,
        joined: all,
    })
}

// Goes on from the curve, which takes `start` bytes. `first` is the curve's list, kept for the line of the route; `curve` begins with
// it and is written over from hop to hop.
pub(crate) fn walk(
    input: &[u8],
    first: &[u64],
    start: usize,
    mut curve: [u64; CURVE_NUMBERS],
    text: &mut Text,
)
    requires starts { Starts input.now first.now start curve }
    requires empty { text.old ≡ [] }
    ensures { Route input.now text.new }
{
    let mut numbers = first.len();
    let mut next = [0u64; CURVE_NUMBERS];
    // No server yet: `passed` says so.
    let mut joined = servers::rated(0, 0);
    let mut passed = 0;
    let mut rest = &input[start..];
    while is_due(passed, rest) {
        if passed == SERVERS {
            return text.refuse(Refusal::Count, SERVERS + 2);
        }
        let step = match step_at(rest, &curve[..numbers], &mut next, passed, joined) {
            Ok(step) => step,
            // The curve is profile 1, so the server behind `passed` others is profile `passed` + 2.
            Err(refusal) => return text.refuse(refusal, passed + 2),
        };
        text.put_hop(passed + 1, step.backlog, step.delay);
        passed += 1;
        rest = &rest[reading::first_end(rest)..];
        curve = next;
        numbers = limits::BUCKET_NUMBERS * step.count;
        joined = step.joined;
    }
    // Where every hop is answered, so is the route, which is proved.
    text.put_route(
        ports::backlog(first, joined).unwrap(),
        ports::delay(first, joined).unwrap(),
    );
}

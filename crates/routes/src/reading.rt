// Profiles back to back: what stands at a place of the input, read as the curve or the server that is due there.
ghost use Rattle.std.specs.Prelude.{◌≡◌, length};
ghost use Rattle.checks.specs.Table.{code_of, told};
ghost use Rattle.servers.specs.Cited.{server_told};
ghost use Rattle.routes.specs.Cited.{FirstEnd, CurveRead, ServerRead};

use checks::{Refusal, limits};
use profiles::Held;
use servers::Server;
use settle::Part;

// The end of the first profile of an input, as far as there are bytes.
pub(crate) fn first_end(input: &[u8]) -> usize
    ensures { FirstEnd input.now result }
{
    profiles::bytes_taken(input).min(input.len())
}

// Reads the curve that an input begins with into a list of 128 numbers. Answers how many of them are the curve's.
pub(crate) fn read_curve(input: &[u8], out: &mut [u64]) -> Result<usize, Refusal>
    requires { length out.old ≡ 128 }
    ensures { CurveRead input.now out.new (code_of result) (told result) }
{
    if profiles::kind_in(input) != profiles::CURVE {
        return Err(Refusal::Header);
    }
    let end = first_end(input);
    let whole = Part::whole(out);
    match profiles::read(&input[..end], out, whole)?.held {
        Held::Curve(count) => Ok(limits::BUCKET_NUMBERS * count),
        // A file of this kind holds nothing else, which is proved.
        Held::Server(_) => unreachable!(),
    }
}

// The server that what is left of an input begins with.
pub(crate) fn read_server(rest: &[u8]) -> Result<Server, Refusal>
    ensures { ServerRead rest.now (code_of result) (server_told result) }
{
    if profiles::kind_in(rest) == profiles::CURVE {
        return Err(Refusal::Header);
    }
    let end = first_end(rest);
    let mut none = [0u64; 2];
    match profiles::read(&rest[..end], &mut none, Part { at: 0, room: 2 })?.held {
        Held::Server(server) => Ok(server),
        // A file of this kind holds nothing else, which is proved.
        Held::Curve(_) => unreachable!(),
    }
}
